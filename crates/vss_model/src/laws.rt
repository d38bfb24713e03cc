//! What holds of the definitions themselves: a function that does nothing, whose contract is the law.

ghost use Rattle.std.specs.Prelude.{◌≡◌, [], true, false};
ghost use Rattle.scenario.specs.Plan.{Plan};
ghost use Rattle.vss_model.specs.State.{State};
ghost use Rattle.vss_model.specs.Reply.{leaves_all};
ghost use Rattle.vss_model.specs.Acts.{Act, after, changes, enabled, reply};

/// An act that is not enabled, is refused, or only looks has no changes, in any state; and without changes the state stays.
#[tactic(auto, using(crate::proofs::Changes::none_if_blocked, crate::proofs::Changes::none_if_refused, crate::proofs::Changes::stays))]
pub fn refused_acts_have_no_changes()
    ensures blocked { (s : Plan) (st : State) (act : Act) → enabled s st act.event ≡ false → changes s st act ≡ [] }
    ensures refused { (s : Plan) (st : State) (act : Act) → leaves_all (reply s st act) ≡ true → changes s st act ≡ [] }
    ensures stays { (s : Plan) (st : State) (act : Act) → changes s st act ≡ [] → after s st act ≡ st }
{}
