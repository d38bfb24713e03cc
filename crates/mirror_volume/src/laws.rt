//! What holds of every run of commands, and of every mirror that is brought into step: functions that do nothing, whose contracts are
//! the laws.

ghost use Rattle.std.specs.Prelude.{◌≡◌, ◌≤◌, ◌+◌, ◌⊎◌, ℕ, Bool, true, List, map, sum};
ghost use Rattle.vss_names.specs.Faults.{Rose};
ghost use Rattle.write_history.specs.History.{History};
ghost use Rattle.mirror_volume.specs.declared.command.Command.{Command};
ghost use Rattle.mirror_volume.specs.declared.said.Said.{Said};
ghost use Rattle.mirror_volume.specs.Replies.{Kind, IsRun, are_plain, replies_of, used_by_all, IsRefused, AreUsedUp};
ghost use Rattle.mirror_volume.specs.Mirrors.{MirrorValue};
ghost use Rattle.mirror_volume.specs.Resync.{Call, AreCalls, copied_on, stale_at};

use volume_device::Device;

/// Where a volume tells, and no device failed, no image was evicted and no cut was refused, what it said is what the definitions say:
/// it depends on the history and the commands alone.
pub fn plain_replies_are_the_definitions()
    ensures { (kind : Kind) (ready count now_ready now_count : ℕ) (h : History) (commands : List Command) (said : List Said) → IsRun kind true h ready count commands said now_ready now_count → are_plain said ≡ true → said ≡ replies_of h commands }
{}

/// So two volumes that stand for one history say the same, whatever holds their blocks.
pub fn two_volumes_reply_alike()
    ensures { (kind other : Kind) (ready count now_ready now_count ready_too count_too now_ready_too now_count_too : ℕ) (h : History) (commands : List Command) (said also : List Said)
        → IsRun kind true h ready count commands said now_ready now_count → IsRun other true h ready_too count_too commands also now_ready_too now_count_too
        → are_plain said ≡ true → are_plain also ≡ true → said ≡ also }
{}

/// A volume is ready for no fewer cuts after a run than before, but for those that its cuts used up; or a device failed. So where a cut
/// is refused, the commands before it used all up, or a device failed in one of them.
pub fn cuts_are_refused_for_a_cause()
    ensures spent { (kind : Kind) (ready count now_ready now_count : ℕ) (tells : Bool) (h : History) (commands : List Command) (said : List Said) → IsRun kind tells h ready count commands said now_ready now_count
        → (ready ≤ now_ready + used_by_all kind.per_cut commands said) ⊎ Rose count now_count }
    ensures refused { (kind : Kind) (tells : Bool) (h : History) (ready count : ℕ) (commands : List Command) (said : List Said)
        → IsRefused kind tells h ready count commands said → AreUsedUp kind tells h ready count commands said }
{}

/// A mirror is in step after as many steps that copied a block of it as it had stale blocks, with no write between, whatever other
/// calls were.
pub fn steps_bring_a_mirror_into_step<D: Device>()
    ensures { (k : ℕ) (old new : MirrorValue D) (calls : List Call) → AreCalls D.Device old calls new
        → sum (map (copied_on k) calls) ≡ stale_at old k → stale_at new k ≡ 0 }
{}
