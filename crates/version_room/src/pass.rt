ghost use Rattle.version_room.specs.Known.{HasSomeClient};
ghost use Rattle.version_room.specs.Lawful.{IsLawful};

use crate::plays::{Load, Share};
use crate::rule::VERSION;
use crate::{Room, ViewOf};
use atomic_table::Seat;
use hist_journal::Listed;

/// A caller's token: what it has seen of the list, what it added, and the client numbers that its entries may
/// carry. It has no bytes.
#[derive(Drop)]
pub struct Pass<S: Listed> {
    pub(crate) seat: Seat<Option<S>, ViewOf<S>>,
    pub ghost lawful: { ∥ IsLawful S.meaning seat.me.0 ∥₁ },
    pub ghost numbers: { HasSomeClient seat.me.0.own },
}

impl<S: Listed> Room<S> {
    ghost use Rattle.std.specs.Prelude.{◌≡◌, ◌≤◌};
    ghost use Rattle.hist_journal.specs.Meaning.{raises};
    ghost use Rattle.version_room.specs.Known.{CanSpare, with_load, with_the_least, with_the_rest};
    ghost use Rattle.version_room.specs.Seats.{IsOf, IsSame, known};

    /// A new pass that has seen the same list. The least client number of `from` goes to it.
    pub fn new_pass(&self, from: &mut Pass<S>) -> Pass<S>
        requires room { IsOf S.meaning self.now from.old.seat }
        requires number { CanSpare S.meaning (known from.old.seat) }
        ensures room { IsOf S.meaning self.now from.new.seat × IsOf S.meaning self.now result.seat }
        ensures same { IsSame from.old.seat from.new.seat }
        ensures from { known from.new.seat ≡ with_the_rest (known from.old.seat) }
        ensures new { known result.seat ≡ with_the_least (known from.old.seat) }
    {
        Pass {
            seat: self.table.shared.split_seat::<Share>(&mut from.seat),
        }
    }

    /// Loads the version, and waits for nobody. It may be in the middle of another's turn.
    pub fn load_version(&self, pass: &mut Pass<S>) -> u64
        requires { IsOf S.meaning self.now pass.old.seat }
        ensures room { IsOf S.meaning self.now pass.new.seat }
        ensures same { IsSame pass.old.seat pass.new.seat }
        ensures pass { known pass.new.seat ≡ with_load (known pass.old.seat) result }
        ensures seen { raises S.meaning (known pass.old.seat).seen ≤ result }
        ensures last { (known pass.old.seat).last ≤ result }
    {
        self.table.shared.load::<Load>(&mut pass.seat, VERSION)
    }
}
