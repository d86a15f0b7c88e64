ghost use Rattle.std.specs.Prelude.{◌≡◌, ◌∷◌, [], All, IfErr, IfOk, Some};

use crate::plays::Gather;
use crate::rule::{STATE, TurnRule};
use crate::{Pass, ViewOf};
use atomic_table::{Refused, Seat, Table};
use hist_journal::Listed;
use std::alloc::{AllocFailed, Global};
use std::snapshot::Snapshot;

/// One value, which callers have in turns, and a version. It may be shared by threads.
#[derive(Drop)]
pub struct Room<S: Listed> {
    pub(crate) table: Table<Option<S>, ViewOf<S>, Snapshot<S>, TurnRule, Global>,
    ghost sized: { (table.shared.table_id.words ≡ 3) × (table.shared.table_id.slots ≡ 1) },
}

impl<S: Listed> Room<S> {
    ghost use Rattle.version_room.specs.Closing.{EndsWell, HaveAllClients, all_known};
    ghost use Rattle.version_room.specs.Known.{first_known};
    ghost use Rattle.version_room.specs.Seats.{IsOf, IsSame, Rests, head_of, known};

    /// A room with this state at version 0, and its first pass, which has all client numbers. For want of memory the
    /// state comes back.
    pub fn new(alloc: Global, state: S) -> Result<(Room<S>, Pass<S>), S>
        requires { S.meaning.list state ≡ [] }
        ensures head { IfOk result (λ r. head_of S.meaning r.0 ≡ S.meaning.head state) }
        ensures room { IfOk result (λ r. IsOf S.meaning r.0 r.1.seat) }
        ensures pass { IfOk result (λ r. known r.1.seat ≡ first_known) }
        ensures err { IfErr result (λ back. back ≡ state) }
    {
        state.show_lawful();
        let about = Snapshot::of(&state);
        let slots = match row_of(alloc, Some(state)) {
            Ok(slots) => slots,
            Err(back) => return Err(back.unwrap()),
        };
        match Table::new(alloc, &[0, 0, 0], slots, &about) {
            Ok((table, seat)) => Ok((Room { table }, Pass { seat })),
            Err(Refused { slots }) => Err(only_of(slots)),
        }
    }

    /// Takes the room apart. These passes have all client numbers together, so no other pass is left.
    pub fn close(self, pass: Pass<S>, rest: Vec<Pass<S>>) -> S
        requires room { IsOf S.meaning self pass.seat × All (λ other. IsOf S.meaning self other.seat) rest.items }
        requires clients { HaveAllClients (known pass.seat) (all_known rest.items) }
        ensures head { S.meaning.head result ≡ head_of S.meaning self }
        ensures pass { EndsWell S.meaning result (known pass.seat) }
        ensures rest { All (EndsWell S.meaning result) (all_known rest.items) }
    {
        let Pass { mut seat } = pass;
        self.gather(&mut seat, rest);
        let Room { table } = self;
        let mut closed = table.close_with(seat);
        let state = closed.take(STATE);
        closed.free();
        state.unwrap()
    }

    /// The seat takes in what is known of these passes.
    fn gather(&self, seat: &mut Seat<Option<S>, ViewOf<S>>, mut rest: Vec<Pass<S>>)
        requires { IsOf S.meaning self.now seat.old × All (λ other. IsOf S.meaning self.now other.seat) rest.items }
        ensures same { IsSame seat.old seat.new × Rests seat.new.me }
        ensures pass { known seat.new ≡ known seat.old }
        ensures all { seat.new.me.0.gathered ≡ all_known rest.items }
    {
        while let Some(pass) = rest.pop() {
            let Pass { seat: other } = pass;
            self.table.shared.join_seat::<Gather>(seat, other);
        }
        rest.destroy_empty();
    }
}

/// A vector of one value, which comes back for want of memory.
fn row_of<T>(alloc: Global, value: T) -> Result<Vec<T>, T>
    ensures ok { IfOk result (λ row. row.items ≡ value ∷ []) }
    ensures err { IfErr result (λ back. back ≡ value) }
{
    let Ok(mut row) = Vec::with_capacity(alloc, 1) else {
        return Err(value);
    };
    match row.push(value) {
        Ok(()) => Ok(row),
        Err(failed) => {
            let AllocFailed { value } = failed;
            row.destroy_empty();
            Err(value)
        }
    }
}

/// The one value of a vector.
fn only_of<T>(mut row: Vec<Option<T>>) -> T
    requires { (value : T) × (row.items ≡ Some value ∷ []) }
    ensures { row.items ≡ Some result ∷ [] }
{
    let last = row.pop();
    row.destroy_empty();
    last.unwrap().unwrap()
}
