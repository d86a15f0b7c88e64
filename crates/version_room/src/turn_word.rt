//! A turn as the version word of its room.
ghost use Rattle.std.specs.Prelude.{◌≡◌};

use crate::plays::{Hear, Lift};
use crate::rule::VERSION;
use crate::{Begun, Pass, Room, Turn, ViewOf};
use atomic_table::Seat;
use hist_journal::Listed;
use store_traits::Word;

/// What a turn was made with. No value of it is made.
pub struct Entered<S: Listed> {
    /// The seat of the pass, which names the room's table and has the state's head, as it stands outside a turn.
    pub seat: Seat<Option<S>, ViewOf<S>>,
    /// Which pass it is.
    pub pass: u64,
    /// The turn as it began; none where the pass is in no turn.
    pub begun: Option<Begun<S::Entry, S::Holding>>,
}

impl<'a, S: Listed> Word for Turn<'a, S> {
    ghost use Rattle.std.specs.Prelude.{IsSome};
    ghost use Rattle.version_room.specs.Turns.{made_of, number_of};

    type Made = Entered<S>;

    ghost number = { λ turn. number_of S.meaning turn.pass.now.seat.me.0.stage };

    ghost made = { λ turn. made_of turn.pass.ghost_name turn.pass.now.seat };

    ghost ready = { λ made. IsSome made.begun };

    fn load(&mut self) -> u64 {
        self.room.hear(self.pass)
    }

    fn raise(&mut self) {
        self.room.lift(self.pass);
    }
}

impl<S: Listed> Room<S> {
    ghost use Rattle.version_room.specs.Seats.{IsAtTable, IsSame};
    ghost use Rattle.version_room.specs.Turns.{CanRaise, HasRaised, IsNumber};

    /// Loads the version in a turn.
    fn hear(&self, pass: &mut Pass<S>) -> u64
        requires { IsAtTable self.now pass.old.seat }
        ensures pass { IsSame pass.old.seat pass.new.seat × (pass.new.seat.me ≡ pass.old.seat.me) }
        ensures number { IsNumber S.meaning pass.old.seat.me.0.stage result }
    {
        self.table.shared.load::<Hear>(&mut pass.seat, VERSION)
    }

    /// Raises the version in a turn.
    fn lift(&self, pass: &mut Pass<S>)
        requires room { IsAtTable self.now pass.old.seat }
        requires low { CanRaise S.meaning pass.old.seat.me.0.stage }
        ensures { IsSame pass.old.seat pass.new.seat × HasRaised pass.old.seat.me pass.new.seat.me }
    {
        self.table
            .shared
            .fetch_add::<Lift>(&mut pass.seat, VERSION, 1);
    }
}
