ghost use Rattle.version_room.specs.Lawful.{IsLawful};

use crate::plays::{Learn, Tell};
use crate::rule::SERVING;
use crate::{Pass, Room, ViewOf};
use atomic_table::Seat;
use hist_journal::Listed;

/// What a pass has seen, to be told to another. It has no client number and takes no turn.
#[derive(Drop)]
pub struct Note<S: Listed> {
    pub(crate) seat: Seat<Option<S>, ViewOf<S>>,
    pub ghost lawful: { ∥ IsLawful S.meaning seat.me.0 ∥₁ },
}

impl<S: Listed> Room<S> {
    ghost use Rattle.std.specs.Prelude.{◌≡◌};
    ghost use mathlib.Core.List.{IsPrefix};
    ghost use Rattle.version_room.specs.Known.{with_told};
    ghost use Rattle.version_room.specs.Seats.{IsOf, IsSame, known};

    /// A note of what the pass has seen.
    pub fn note(&self, pass: &mut Pass<S>) -> Note<S>
        requires { IsOf S.meaning self.now pass.old.seat }
        ensures room { IsOf S.meaning self.now pass.new.seat × IsOf S.meaning self.now result.seat }
        ensures same { IsSame pass.old.seat pass.new.seat }
        ensures pass { known pass.new.seat ≡ known pass.old.seat }
        ensures note { (known result.seat).seen ≡ (known pass.old.seat).seen }
    {
        Note {
            seat: self.table.shared.split_seat::<Tell>(&mut pass.seat),
        }
    }

    /// The pass has then seen what it had seen and what the note tells.
    pub fn learn(&self, pass: &mut Pass<S>, note: Note<S>)
        requires pass { IsOf S.meaning self.now pass.old.seat }
        requires note { IsOf S.meaning self.now note.seat }
        ensures room { IsOf S.meaning self.now pass.new.seat }
        ensures same { IsSame pass.old.seat pass.new.seat }
        ensures pass { known pass.new.seat ≡ with_told (known pass.old.seat) (known note.seat).seen }
        ensures seen { IsPrefix (known pass.old.seat).seen (known pass.new.seat).seen }
        ensures told { IsPrefix (known note.seat).seen (known pass.new.seat).seen }
    {
        let Note { seat } = note;
        self.table.shared.join_seat::<Tell>(&mut pass.seat, seat);
        self.table.shared.load::<Learn>(&mut pass.seat, SERVING);
    }
}
