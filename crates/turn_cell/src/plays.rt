//! The kinds of step that the turn makes on its table, and what each tells.
ghost use Rattle.turn_cell.specs.Steps.{looked, drew, awaited, served, rang, one_more, made_by, taken_in, spent};

use crate::desk::Desk;
use crate::view::View;
use atomic_table::{Join, Play, Split};

/// A load of the ticket that is served, by a caller that holds none.
pub(crate) struct Look;

impl<M, C, R> Play<Desk<M, C, R>, View<M, C, R>> for Look {
    ghost then = { looked };
}

/// An addition of one to the next ticket.
pub(crate) struct Draw;

impl<M, C, R> Play<Desk<M, C, R>, View<M, C, R>> for Draw {
    ghost then = { drew };
}

/// A load of the ticket that is served, which takes the machine out where that is the caller's own.
pub(crate) struct Await;

impl<M, C, R> Play<Desk<M, C, R>, View<M, C, R>> for Await {
    ghost then = { awaited };
}

/// An addition of one to the ticket that is served, by which the machine is home and the entry in the history.
pub(crate) struct Serve;

impl<M, C, R> Play<Desk<M, C, R>, View<M, C, R>> for Serve {
    ghost then = { served };
}

/// An addition of one to a bell.
pub(crate) struct Ring;

impl<M, C, R> Play<Desk<M, C, R>, View<M, C, R>> for Ring {
    ghost then = { rang };
}

/// One more caller is made.
pub(crate) struct MakeCaller;

impl<M, C, R> Split<View<M, C, R>> for MakeCaller {
    ghost left = { one_more };

    ghost right = { made_by };
}

/// A caller is taken in by another, for good.
pub(crate) struct TakeIn;

impl<M, C, R> Join<View<M, C, R>> for TakeIn {
    ghost both = { taken_in };

    ghost spent = { spent };
}
