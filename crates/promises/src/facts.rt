//! What holds for every run, in the words of the definitions: functions that do nothing, whose contracts are the laws.

ghost use Rattle.std.specs.Prelude.{slice_get, is_some, ◌⊎◌, length, drop, ◌≡◌, ◌<◌, ◌≤◌, ◌+◌, ◌++◌, ◌∷◌, ◌&&◌, [], true, false, Bool, ℕ, List, Some, None};
ghost use Rattle.write_history.specs.declared.move_item.Move.{Move};
ghost use Rattle.scenario.specs.Plan.{Plan, lines_of};
ghost use Rattle.write_history.specs.History.{content, point_in, AreInTime};
ghost use Rattle.write_history.specs.Slots.{Placed, copies, used_by};
ghost use Rattle.set_agenda.specs.declared.group.Group.TheVariants.{Hold, Cut, Commit, Release};
ghost use Rattle.set_agenda.specs.Agenda.{Agenda, plain, open_group, has_said, is_among, is_asking, is_working, next_member};
ghost use Rattle.component_doc.specs.Selection.{Named};
ghost use Rattle.component_doc.specs.Over.{IsSelectedOver};
ghost use Rattle.vss_model.specs.Sessions.{most_images, known_metas, has_failed_identify};
ghost use Rattle.set_agenda.specs.Limits.{spent_of};
ghost use Rattle.set_agenda.specs.Course.{is_member, limits_now};
ghost use Rattle.vss_model.specs.Steps.{runs};
ghost use Rattle.vss_model.specs.State.{State, SetRow, in_progress, row_of, history_of, has_image, left_now, is_held, is_frozen};
ghost use Rattle.vss_model.specs.Cut.{cut, is_cut_group, IsShownAt, IsCutAt};
ghost use Rattle.requestor.specs.declared.stage.Stage.TheVariants.{Opened};
ghost use Rattle.requestor.specs.Check.{is_stage};
ghost use Rattle.requestor.specs.Session.{Session};
ghost use Rattle.vss_model.specs.Facts.{IsNewest, IsOrderly, has_failed, holds_for};
ghost use Rattle.vss_model.specs.Acts.{Act, after, state, order_of_writer, idle_now};
ghost use Rattle.vss_model.specs.Trail.{run, moved, acts, acts_if, event_of, is_legal, is_legal_move, is_complete, cursor, faults};
ghost use Rattle.scenario.specs.Bounds.{IsPlan, has_end};
ghost use Rattle.vss_model.specs.Turns.{EndsSessions, CanGoOn, most_moves, turns_left};
ghost use Rattle.vss_model.specs.Headline.{ReadsAsAtTheCut, LeavesNothing, IsHeldForSet, IsFrozenForSet, KeepsSet, MakesEachLineOnce};
ghost use Rattle.vss_model.specs.Laws.{IsKeptByChanges, IsKeptByWrites, Passes, RunsSnapshot};

/// One more act, or one more move, adds to a run just what it is itself.
pub fn one_more_move()
    ensures state { (s : Plan) (before : List Act) (act : Act) →
        state s (before ++ act ∷ []) ≡ after s (state s before) act }
    ensures run { (s : Plan) (trail : List Move) (m : Move) →
        run s (trail ++ m ∷ []) ≡ moved s (run s trail) m }
    ensures acts { (s : Plan) (trail : List Move) (m : Move) →
        acts s (trail ++ m ∷ []) ≡ acts s trail ++ acts_if (event_of s (run s trail) m.actor) m.mark }
    ensures legal { (s : Plan) (trail : List Move) (m : Move) →
        is_legal s (trail ++ m ∷ []) ≡ (is_legal s trail && is_legal_move s (run s trail) m) }
    ensures faults { (trail : List Move) (m : Move) →
        faults (trail ++ m ∷ []) ≡ faults trail + faults (m ∷ []) }
{}

/// A run stands where its acts have led, and it keeps its moves.
pub fn run_of_acts()
    ensures state { (s : Plan) (trail : List Move) → (run s trail).state ≡ state s (acts s trail) }
    ensures moves { (s : Plan) (trail : List Move) → (run s trail).moves ≡ trail }
{}

/// The rule of cases: what each named change keeps, every act keeps.
pub fn rule_of_cases()
    ensures { (test : State → Bool) → IsKeptByChanges (Passes test) → ((st : State) → IsKeptByWrites (Passes test) st)
        → (s : Plan) (st : State) (act : Act) → Passes test st → Passes test (after s st act) }
{}

/// A volume is held, and a writer stands frozen, only while the one set in progress has its snapshot agenda.
#[tactic(auto, using(vss_model::proofs::HeldOfSet::held_means, vss_model::proofs::HeldOfSet::frozen_means))]
pub fn held_in_snapshot()
    ensures held { (s : Plan) (acts : List Act) (v : ℕ) → is_held (state s acts) v ≡ true → RunsSnapshot (state s acts) }
    ensures frozen { (s : Plan) (acts : List Act) (w : ℕ) → is_frozen (state s acts) w ≡ true → RunsSnapshot (state s acts) }
{}

/// Where the Cut step is the next one, every volume of the set is held and every participant stands frozen.
#[tactic(auto, using(vss_model::proofs::AtCut::held_at_cut, vss_model::proofs::AtCut::frozen_at_cut))]
pub fn all_stand_still_at_the_cut()
    ensures held { (s : Plan) (acts : List Act) (r : SetRow) (v : ℕ) → is_cut_group (open_group (left_now (state s acts))) ≡ true
        → in_progress (state s acts) ≡ Some r → is_among v r.volumes ≡ true → is_held (state s acts) v ≡ true }
    ensures frozen { (s : Plan) (acts : List Act) (r : SetRow) (w : ℕ) → is_cut_group (open_group (left_now (state s acts))) ≡ true
        → in_progress (state s acts) ≡ Some r → is_member (state s acts).course.members w ≡ true → is_frozen (state s acts) w ≡ true }
{}

/// An image shows its volume as it was at its set's cut, which is one part of the acts for all volumes of the set: its
/// point is the number of effective writes there, and since then the writes begin with those, so each block reads as it
/// did there. The set's Cut step was the next one there, so all stood still.
pub fn image_shows_the_cut()
    ensures image { (s : Plan) (acts : List Act) (n v p : ℕ) → point_in n (history_of (state s acts) v).images ≡ Some p
        → IsShownAt s v p (history_of (state s acts) v).writes (cut s n acts) }
    ensures reads { (s : Plan) (acts before : List Act) (n v p b : ℕ) → point_in n (history_of (state s acts) v).images ≡ Some p
        → cut s n acts ≡ Some before → content (history_of (state s acts) v).writes p b
        ≡ content (history_of (state s before) v).writes (length (history_of (state s before) v).writes) b }
    ensures cut { (s : Plan) (n : ℕ) (acts before : List Act) → cut s n acts ≡ Some before → IsCutAt s n before }
{}

/// While a volume of the set in progress is held, no act changes its effective writes.
#[tactic(auto, using(vss_model::proofs::Volumes::held_keeps))]
pub fn held_volume_keeps_its_writes()
    ensures { (s : Plan) (acts : List Act) (act : Act) (r : SetRow) (v : ℕ) → in_progress (state s acts) ≡ Some r
        → is_among v r.volumes ≡ true → is_held (state s acts) v ≡ true
        → (history_of (after s (state s acts) act) v).writes ≡ (history_of (state s acts) v).writes }
{}

/// The images of a volume rise in set, their points do not fall, and none is past the end of its effective writes.
#[tactic(auto, using(vss_model::proofs::OneCut::images_in_time))]
pub fn images_in_time()
    ensures { (s : Plan) (acts : List Act) (v : ℕ)
        → AreInTime (length (history_of (state s acts) v).writes) (history_of (state s acts) v).images }
{}

/// The image of the set in progress is the newest of its volume.
#[tactic(auto, using(vss_model::proofs::HeldImage::newest_image))]
pub fn image_in_progress_is_the_newest()
    ensures { (s : Plan) (acts : List Act) (r : SetRow) (v p : ℕ) → in_progress (state s acts) ≡ Some r
        → point_in r.number (history_of (state s acts) v).images ≡ Some p
        → IsNewest r.number p (history_of (state s acts) v).images }
{}

/// A volume of the set in progress has no image of it before its Commit step, and has one as soon as that step is made.
#[tactic(auto, using(vss_model::proofs::OneCut::no_image_yet, vss_model::proofs::Completed::image_once_made))]
pub fn images_come_at_commit()
    ensures before { (s : Plan) (acts : List Act) (r : SetRow) (a : Agenda) (v : ℕ)
        → in_progress (state s acts) ≡ Some r → (state s acts).course.agenda ≡ Some a
        → has_said a.log (plain Commit) v ≡ false
        → has_image r.number (history_of (state s acts) v) ≡ false }
    ensures after { (s : Plan) (acts : List Act) (r : SetRow) (a : Agenda) (v : ℕ)
        → in_progress (state s acts) ≡ Some r → (state s acts).course.agenda ≡ Some a
        → has_said a.log (plain Commit) v ≡ true → is_among v r.volumes ≡ true
        → v < length s.volumes → has_image r.number (history_of (state s acts) v) ≡ true }
{}

/// From its Commit step until the volume's Release the image of the set in progress names no block: its point is the end of
/// the volume's effective writes, and it uses no slot.
#[tactic(auto, using(vss_model::proofs::HeldImage::held_point, vss_model::proofs::HeldImage::held_slots))]
pub fn held_image_names_no_block()
    ensures point { (s : Plan) (acts : List Act) (r : SetRow) (v p : ℕ) → in_progress (state s acts) ≡ Some r
        → is_held (state s acts) v ≡ true → point_in r.number (history_of (state s acts) v).images ≡ Some p
        → p ≡ length (history_of (state s acts) v).writes }
    ensures slots { (s : Plan) (acts : List Act) (r : SetRow) (v p blocks : ℕ) → in_progress (state s acts) ≡ Some r
        → is_held (state s acts) v ≡ true → point_in r.number (history_of (state s acts) v).images ≡ Some p
        → used_by blocks (history_of (state s acts) v).writes (history_of (state s acts) v).images r.number ≡ Some 0 }
{}

/// Sets are numbered from 1 on and at most the newest is in progress, as the session's stage says; a running agenda is
/// the one that the stage waits for; and an image stands only of a set that has not failed.
pub fn state_in_order()
    ensures { (s : Plan) (acts : List Act) → IsOrderly (state s acts) }
{}

/// Of a set that has failed no image stands, on any volume.
#[tactic(auto, using(vss_model::proofs::Headline::failed_keeps_nothing))]
pub fn failed_set_keeps_no_image()
    ensures { (s : Plan) (acts : List Act) (n v : ℕ) (r : SetRow) → row_of (state s acts) n ≡ Some r
        → has_failed r.result ≡ true → point_in n (history_of (state s acts) v).images ≡ None }
{}

/// For a set that has failed no copy of an overwritten block is kept, in any area, whichever volumes share it.
#[tactic(auto, using(vss_model::proofs::Headline::failed_has_no_copy))]
pub fn failed_set_keeps_no_copy()
    ensures { (s : Plan) (acts : List Act) (n : ℕ) (r : SetRow) (group : List Placed) → row_of (state s acts) n ≡ Some r
        → has_failed r.result ≡ true → holds_for n (copies group (state s acts).volumes) ≡ false }
{}

/// Before its Cut each volume of the set in progress has room for one more image.
#[tactic(auto, using(vss_model::proofs::HeldImage::room_before_cut, vss_model::proofs::HeldImage::room_at_cut))]
pub fn room_for_an_image_until_the_cut()
    ensures before { (s : Plan) (acts : List Act) (r : SetRow) (v : ℕ) → in_progress (state s acts) ≡ Some r
        → cut s r.number acts ≡ None → is_among v r.volumes ≡ true → length (history_of (state s acts) v).images < most_images }
    ensures at { (s : Plan) (acts : List Act) (r : SetRow) (v : ℕ) → is_cut_group (open_group (left_now (state s acts))) ≡ true
        → in_progress (state s acts) ≡ Some r → is_among v r.volumes ≡ true → length (history_of (state s acts) v).images < most_images }
{}

/// While the Hold group is open the Cut step is not made, and nothing is said of a Release.
#[tactic(auto, using(vss_model::proofs::Spoken::uncut_at_hold, vss_model::proofs::Spoken::unreleased_at_hold))]
pub fn hold_comes_before_cut_and_release()
    ensures cut { (s : Plan) (acts : List Act) (a : Agenda) → open_group (left_now (state s acts)) ≡ Some Hold
        → (state s acts).course.agenda ≡ Some a → has_said a.log (plain Cut) 0 ≡ false }
    ensures release { (s : Plan) (acts : List Act) (a : Agenda) (v : ℕ) → open_group (left_now (state s acts)) ≡ Some Hold
        → (state s acts).course.agenda ≡ Some a → has_said a.log (plain Release) v ≡ false }
{}

/// What a session names are selectable components of writers that it knows, each named once and in order; whom it knows does
/// not change once its writers are gathered; and who takes part has not failed at Identify.
pub fn named_components_are_known()
    ensures named { (s : Plan) (acts : List Act) → IsSelectedOver (known_metas s (state s acts)) (Named (state s acts).explicit) }
    ensures known { (s : Plan) (acts : List Act) (act : Act) (q p : Session) → (state s acts).session ≡ Some q → is_stage q.stage Opened ≡ false
        → (after s (state s acts) act).session ≡ Some p → known_metas s (after s (state s acts) act) ≡ known_metas s (state s acts) }
    ensures fit { (s : Plan) (acts : List Act) (w : ℕ) → is_member (state s acts).course.members w ≡ true
        → has_failed_identify (slice_get (state s acts).course.rows w) ≡ false }
{}

/// While no set is in progress, no volume is held and no writer stands frozen.
#[tactic(auto, using(vss_model::proofs::Headline::none_held, vss_model::proofs::Headline::none_frozen))]
pub fn free_without_a_set()
    ensures held { (s : Plan) (acts : List Act) (v : ℕ) → in_progress (state s acts) ≡ None
        → is_held (state s acts) v ≡ false }
    ensures frozen { (s : Plan) (acts : List Act) (w : ℕ) → in_progress (state s acts) ≡ None
        → is_frozen (state s acts) w ≡ false }
{}

/// While an agenda runs, the provider has a step to make, or the first writer that is waited for has an order to answer.
#[tactic(auto, using(vss_model::proofs::Waiting::agenda_goes_on))]
pub fn running_agenda_goes_on()
    ensures { (s : Plan) (acts : List Act) → runs (state s acts) ≡ true → (is_working (left_now (state s acts)) ≡ true)
        ⊎ (is_some (order_of_writer (state s acts) (next_member (left_now (state s acts)))) ≡ true) }
{}

/// Where an agenda waits for writers a limit runs, and an idle stretch spends it.
#[tactic(auto, using(vss_model::proofs::Waiting::idle_spends))]
pub fn idle_stretch_spends_a_limit()
    ensures { (s : Plan) (acts : List Act) → is_asking (left_now (state s acts)) ≡ true
        → is_some (spent_of ((state s acts).clock + idle_now (state s acts)) (limits_now (state s acts).course)) ≡ true }
{}

/// A legal trail that is not complete can go on, where every lane ends the sessions that it begins.
pub fn legal_trail_goes_on()
    ensures { (s : Plan) (trail : List Move) → EndsSessions s → is_legal s trail ≡ true → is_complete s trail ≡ false
        → CanGoOn s (run s trail) }
{}

/// In a legal trail the owner of the session that stands has an `end` line left, where every lane ends the sessions that
/// it begins.
#[tactic(auto, using(vss_model::proofs::GoesOn::owner_ends))]
pub fn owner_has_an_end_left()
    ensures { (s : Plan) (trail : List Move) (q : Session) → EndsSessions s → is_legal s trail ≡ true
        → (run s trail).state.session ≡ Some q → has_end (drop (cursor trail q.owner) (lines_of s q.owner)) ≡ true }
{}

/// Turns come to an end: each legal move leaves fewer turns, and so a legal trail is short.
#[tactic(auto, using(vss_model::proofs::TrailLength::one_turn, vss_model::proofs::TrailLength::trail_is_short))]
pub fn turns_come_to_an_end()
    ensures fewer { (s : Plan) (trail : List Move) (m : Move) → IsPlan s → is_legal s (trail ++ m ∷ []) ≡ true
        → turns_left s (run s (trail ++ m ∷ [])) < turns_left s (run s trail) }
    ensures short { (s : Plan) (trail : List Move) → IsPlan s → is_legal s trail ≡ true → length trail ≤ most_moves }
{}

/// Every run keeps its promises after each act: each image reads as its volume at its set's one cut, when all stood still;
/// of a set that failed nothing is kept; and the set in progress is kept by whatever act comes next.
pub fn every_run_keeps_its_promises()
    ensures images { (s : Plan) (acts : List Act) (n v p : ℕ) → point_in n (history_of (state s acts) v).images ≡ Some p
        → ReadsAsAtTheCut s acts n v p }
    ensures failed { (s : Plan) (acts : List Act) (n : ℕ) (r : SetRow) → row_of (state s acts) n ≡ Some r
        → has_failed r.result ≡ true → LeavesNothing s acts n }
    ensures held { (s : Plan) (acts : List Act) (v : ℕ) → is_held (state s acts) v ≡ true → IsHeldForSet (state s acts) v }
    ensures frozen { (s : Plan) (acts : List Act) (w : ℕ) → is_frozen (state s acts) w ≡ true
        → IsFrozenForSet (state s acts) w }
    ensures set { (s : Plan) (acts : List Act) (r : SetRow) (act : Act) → in_progress (state s acts) ≡ Some r
        → KeepsSet s (state s acts) act r }
{}

/// A legal and complete trail makes each line of each lane once, in order.
#[tactic(auto, using(vss_model::proofs::Headline::each_line_once))]
pub fn each_line_is_made_once()
    ensures { (s : Plan) (trail : List Move) → is_legal s trail ≡ true → is_complete s trail ≡ true → MakesEachLineOnce s trail }
{}

/// At the end of a legal and complete trail no set is in progress: each that was started is complete or has failed.
#[tactic(auto, using(vss_model::proofs::Headline::complete_ends))]
pub fn complete_trail_ends_each_set()
    ensures { (s : Plan) (trail : List Move) → IsPlan s → is_legal s trail ≡ true → is_complete s trail ≡ true
        → in_progress (state s (acts s trail)) ≡ None }
{}
