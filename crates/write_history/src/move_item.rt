use crate::actor::Actor;
use crate::mark::Mark;

/// One move of a run.
#[derive(Clone, Copy, Debug, PartialEq, Eq)]
pub struct Move {
    pub actor: Actor,
    pub mark: Mark,
}
