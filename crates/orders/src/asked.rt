use write_history::Actor;

/// What a line of an order asks for: so many moves of an actor.
#[derive(Clone, Copy)]
pub struct Asked {
    pub count: u32,
    pub actor: Actor,
}
