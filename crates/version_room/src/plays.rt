//! What each step on the table tells, and how views are split and joined. These types are for the proofs alone.
use crate::{View, ViewOf};
use atomic_table::{Join, Play, Split};
use hist_journal::Listed;

/// Draws a ticket.
pub struct Draw;

impl<S: Listed> Play<Option<S>, ViewOf<S>> for Draw {
    ghost use Rattle.version_room.specs.Steps.{draws};

    ghost then = { draws S.meaning };
}

/// Looks at the ticket that is served, and takes the state out where it is one's own.
pub struct Look;

impl<S: Listed> Play<Option<S>, ViewOf<S>> for Look {
    ghost use Rattle.version_room.specs.Steps.{looks};

    ghost then = { looks S.meaning };
}

/// Loads the version in a turn.
pub struct Hear;

impl<S: Listed> Play<Option<S>, ViewOf<S>> for Hear {
    ghost use Rattle.version_room.specs.Steps.{hears};

    ghost then = { hears S.meaning };
}

/// Raises the version in a turn.
pub struct Lift;

impl<S: Listed> Play<Option<S>, ViewOf<S>> for Lift {
    ghost use Rattle.version_room.specs.Steps.{lifts};

    ghost then = { lifts S.meaning };
}

/// Gives the state back, and lets the next in.
pub struct End;

impl<S: Listed> Play<Option<S>, ViewOf<S>> for End {
    ghost use Rattle.version_room.specs.Steps.{ends};

    ghost then = { ends S.meaning };
}

/// Loads the version outside a turn.
pub struct Load;

impl<S: Listed> Play<Option<S>, ViewOf<S>> for Load {
    ghost use Rattle.version_room.specs.Steps.{loads};

    ghost then = { loads S.meaning };
}

/// Takes in what a note told.
pub struct Learn;

impl<S: Listed> Play<Option<S>, ViewOf<S>> for Learn {
    ghost use Rattle.version_room.specs.Steps.{learns};

    ghost then = { learns S.meaning };
}

/// The least client number goes to a new pass.
pub struct Share;

impl<D, E, H> Split<View<D, E, H>> for Share {
    ghost use Rattle.version_room.specs.Views.{keeps_the_rest, takes_the_least};

    ghost left = { keeps_the_rest };

    ghost right = { takes_the_least };
}

/// A note is made of a pass, and given to another.
pub struct Tell;

impl<D, E, H> Split<View<D, E, H>> for Tell {
    ghost use Rattle.version_room.specs.Views.{note_view};

    ghost left = { λ v. v };

    ghost right = { note_view };
}

impl<D, E, H> Join<View<D, E, H>> for Tell {
    ghost use Rattle.version_room.specs.Views.{hears_of, given_up};

    ghost both = { hears_of };

    ghost spent = { given_up };
}

/// A pass is given to the one that closes the room.
pub struct Gather;

impl<D, E, H> Join<View<D, E, H>> for Gather {
    ghost use Rattle.version_room.specs.Views.{gathers, given_up};

    ghost both = { gathers };

    ghost spent = { given_up };
}
