ghost use Rattle.std.specs.Prelude.{◌≡◌};

use crate::plays::{Draw, End, Look};
use crate::rule::{SERVING, STATE, TICKET};
use crate::{Pass, Room};
use hist_journal::Listed;
use std::sync::Wait;
use std::thread::yield_now;

/// A turn: until it is left, its caller alone has the state. It cannot be dropped, so it is left on every path.
///
/// As a `Word` it is the version of the room.
pub struct Turn<'a, S: Listed> {
    pub(crate) room: &'a Room<S>,
    pub(crate) pass: &'a mut Pass<S>,
    ghost of: { pass.now.seat.table_id ≡ room.now.table.shared.table_id },
}

impl<S: Listed> Room<S> {
    ghost use Rattle.std.specs.Prelude.{[], Some, None, ◌∷◌};
    ghost use Rattle.version_room.specs.declared.view.Stage.TheVariants.{Outside, Waiting};
    ghost use Rattle.version_room.specs.Seats.{Carries, IsAtTable, IsOf, IsSame};
    ghost use Rattle.version_room.specs.Steps.{Enters};
    ghost use Rattle.version_room.specs.Turns.{Begins, HasLeft, MayLeave};
    ghost use Rattle.version_room.specs.Views.{staged};

    /// Waits for a turn of one's own. `take` then gives the state, and `leave` ends the turn.
    pub fn enter<'a, R: Wait>(&'a self, rt: &R, pass: &'a mut Pass<S>) -> Turn<'a, S>
        requires { IsOf S.meaning self.now pass.old.seat }
        ensures room { result.room.now ≡ self.now }
        ensures pass { result.pass.ghost_name ≡ pass.entry.ghost_name }
        ensures begun { Begins S.meaning pass.old.seat result.pass.now.seat }
    {
        let ticket = self.draw(rt, pass);
        self.wait_for(rt, pass, ticket);
        Turn { room: self, pass }
    }

    /// Draws a ticket. Once all 2^64 - 1 are drawn it waits for good.
    fn draw<R: Wait>(&self, rt: &R, pass: &mut Pass<S>) -> u64
        requires { IsAtTable self.now pass.old.seat × (pass.old.seat.me.0.stage ≡ Outside) }
        ensures same { IsSame pass.old.seat pass.new.seat }
        ensures waiting { pass.new.seat.me ≡ (staged pass.old.seat.me.0 (Waiting result), pass.old.seat.me.1) }
    {
        for _ in rt.forever() {
            let ticket = self.table.shared.peek(TICKET);
            if ticket == u64::MAX {
                yield_now();
            } else {
                let found = self
                    .table
                    .shared
                    .compare_exchange::<Draw>(&mut pass.seat, TICKET, ticket, ticket + 1);
                if found == ticket {
                    return ticket;
                }
            }
        }
        unreachable!()
    }

    /// Waits until this ticket is served. The state is then out of its slot, with the pass.
    fn wait_for<R: Wait>(&self, rt: &R, pass: &mut Pass<S>, ticket: u64)
        requires room { IsAtTable self.now pass.old.seat }
        requires waiting { (pass.old.seat.me.0.stage ≡ Waiting ticket) × (pass.old.seat.me.1 ≡ []) }
        ensures same { IsSame pass.old.seat pass.new.seat }
        ensures entered { Enters S.meaning pass.old.seat.me pass.new.seat.me }
    {
        for _ in rt.forever() {
            let served = self.table.shared.load::<Look>(&mut pass.seat, SERVING);
            if served == ticket {
                return;
            }
            yield_now();
        }
        unreachable!()
    }

    /// Takes the state from the pass.
    fn take_from(&self, pass: &mut Pass<S>) -> S
        requires room { IsAtTable self.now pass.old.seat }
        requires state { (state : S) × Carries pass.old.seat.me (Some state) }
        ensures same { IsSame pass.old.seat pass.new.seat }
        ensures state { Carries pass.old.seat.me (Some result) }
        ensures taken { pass.new.seat.me ≡ (pass.old.seat.me.0, (0, None) ∷ []) }
    {
        self.table
            .shared
            .exchange(&mut pass.seat, STATE, None)
            .unwrap()
    }

    /// Gives the state back, and lets the next in.
    fn put_back(&self, pass: &mut Pass<S>, state: S)
        requires room { IsAtTable self.now pass.old.seat }
        requires state { MayLeave S.meaning pass.old.seat state }
        ensures same { IsSame pass.old.seat pass.new.seat }
        ensures left { HasLeft S.meaning pass.old.seat state pass.new.seat }
    {
        state.show_lawful();
        let nothing = self
            .table
            .shared
            .exchange(&mut pass.seat, STATE, Some(state));
        match nothing {
            None => {}
            Some(_) => unreachable!(),
        }
        self.table
            .shared
            .fetch_add::<End>(&mut pass.seat, SERVING, 1);
    }
}

impl<'a, S: Listed> Turn<'a, S> {
    ghost use Rattle.std.specs.Prelude.{[], ◌∷◌, Some, None};
    ghost use Rattle.version_room.specs.Seats.{Carries, IsSame};
    ghost use Rattle.version_room.specs.Turns.{HasLeft, MayLeave};

    /// The state. It is taken once in a turn.
    pub fn take(&mut self) -> S
        requires { (state : S) × Carries self.old.pass.now.seat.me (Some state) }
        ensures room { self.new.room.now ≡ self.old.room.now }
        ensures pass { self.new.pass.ghost_name ≡ self.old.pass.ghost_name }
        ensures same { IsSame self.old.pass.now.seat self.new.pass.now.seat }
        ensures state { Carries self.old.pass.now.seat.me (Some result) }
        ensures taken { self.new.pass.now.seat.me ≡ (self.old.pass.now.seat.me.0, (0, None) ∷ []) }
    {
        self.room.take_from(self.pass)
    }

    /// Ends the turn: the state goes back, and the next caller in order may enter.
    pub fn leave(self, state: S)
        requires { MayLeave S.meaning self.pass.now.seat state }
        ensures { HasLeft S.meaning self.entry.pass.now.seat state self.exit.1.0.now.seat }
    {
        let Turn { room, pass } = self;
        room.put_back(pass, state);
    }
}
