ghost use Rattle.std.specs.Prelude.{◌≡◌, IsTrue, IfOk, IfSome};
ghost use Rattle.hist_journal.specs.Folds.{edition_of, value_of};
ghost use Rattle.shelf.specs.Base.{ReadsAs};
ghost use Rattle.shelf.specs.Loading.{base_of, Asks, IsOfEdition, DecodesAs, ReadDecodes, LoadRow};
ghost use Rattle.shelf.specs.Plans.{PlanRow, HasPlanRoom};
ghost use Rattle.shelf.specs.ShelfSeen.{shelf_seen};
ghost use Rattle.shelf.specs.ShelfTurns.{MayFault};
ghost use Rattle.shelf.specs.Rules.{rules_of};

use super::Shelf;
use crate::{Loaded, Parts, PlanMade, ValueOf};
use folder_disk::{Folder, MainRead, ReadMainError};
use scratch_rename::Fresh;
use std::alloc::{AllocError, Global};
use std::sync::Arc;
use store_traits::{CallId, Codec, Decoded, Given, Transform};

impl<P: Parts> Shelf<P> {
    /// Reads main and decodes it. A call that does not own the lock needs room for the Fault that it may add: that is
    /// made before the read, also where the history is full.
    pub fn read_main(&mut self, alloc: Global, call: CallId) -> Loaded<ValueOf<P>>
        requires lawful { IsTrue P.F.told → MayFault P.T.after call (shelf_seen self.old) }
        ensures turn { LoadRow call (P.F.tally self.new.folder).count result (shelf_seen self.old) (shelf_seen self.new) }
        ensures reads { IsTrue P.F.told → IfSome (base_of result) (λ base. ReadsAs (P.C.reads self.old.codec) (P.C.default_of self.old.codec) self.old.limit (P.F.contents self.old.folder).main base) }
        ensures value { IsTrue P.F.told → IfSome (base_of result) (λ base. value_of P.T.after self.old.ledger.journal.base self.old.ledger.journal.list ≡ base) }
        ensures edition { IsOfEdition (edition_of self.old.ledger.journal.list) result }
        ensures contents { IsTrue P.F.told → P.F.contents self.new.folder ≡ P.F.contents self.old.folder }
        ensures tally { Asks P.F.told P.F.tally result self.old.folder self.new.folder }
        ensures room_kept { P.F.room self.new.folder ≡ P.F.room self.old.folder }
    {
        if self.ledger.make_room(call).is_err() {
            return Loaded::NoMemory;
        }
        match self.folder.read_main(alloc, self.limit) {
            Ok(read) => load(alloc, &self.codec, self.ledger.edition(), read),
            Err(ReadMainError::Failed) => Loaded::Faulted {
                at: self.ledger.add_fault(call, self.folder.faults()),
            },
            Err(ReadMainError::TooLong { len }) => Loaded::TooLong { len },
            Err(ReadMainError::NoMemory) => Loaded::NoMemory,
        }
    }

    /// The plan of a write of this value, with room for it in the folder.
    pub fn make_plan(&mut self, alloc: Global, value: &ValueOf<P>) -> PlanMade
        ensures plan { PlanRow (rules_of P.T.after P.T.weight_of (P.C.encoded self.old.codec) (P.C.reads self.old.codec) (P.C.default_of self.old.codec)) (P.C.is_value self.old.codec) (shelf_seen self.old).store value.now result }
        ensures room { HasPlanRoom result (P.F.room self.new.folder) }
        ensures same { shelf_seen self.new ≡ record (shelf_seen self.old) { folder = self.new.folder } }
        ensures contents { IsTrue P.F.told → P.F.contents self.new.folder ≡ P.F.contents self.old.folder }
        ensures tally { P.F.tally self.new.folder ≡ P.F.tally self.old.folder }
    {
        let len = self.codec.encoded_len(value);
        if len > self.limit {
            return PlanMade::TooLong { len };
        }
        // The plan may be main only because this is a value of the codec.
        self.codec.known(value);
        match self.codec.encode(alloc, value) {
            Ok(bytes) => match self.folder.make_room(alloc, len) {
                Ok(()) => PlanMade::Plan(Fresh::new(bytes)),
                Err(_) => PlanMade::NoMemory,
            },
            Err(_) => PlanMade::NoMemory,
        }
    }
}

/// What a read of main that went well gives, at this edition.
fn load<C: Codec>(alloc: Global, codec: &C, edition: u64, read: MainRead) -> Loaded<C::Value>
    ensures decodes { DecodesAs (C.reads codec.now) (C.default_of codec.now) read result }
    ensures edition { IsOfEdition edition result }
{
    match decode(alloc, codec, read) {
        Ok(Decoded::Good(value)) => match Arc::new(alloc, value) {
            Ok(value) => Loaded::Value(Given { edition, value }),
            Err(_) => Loaded::NoMemory,
        },
        Ok(Decoded::Corrupt) => Loaded::Corrupt,
        Err(_) => Loaded::NoMemory,
    }
}

/// The value that main is: the default where there is no file.
fn decode<C: Codec>(
    alloc: Global,
    codec: &C,
    read: MainRead,
) -> Result<Decoded<C::Value>, AllocError>
    ensures { IfOk result (λ decoded. ReadDecodes (C.reads codec.now) (C.default_of codec.now) read decoded) }
{
    match read {
        MainRead::Bytes(bytes) => codec.decode(alloc, bytes.as_slice()),
        MainRead::Absent => Ok(Decoded::Good(codec.default_value(alloc)?)),
    }
}
