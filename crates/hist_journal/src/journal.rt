ghost use Rattle.std.specs.Prelude.{◌≡◌, ◌+◌, ◌-◌, ◌^◌, ◌<◌, ◌≤◌, ◌∷◌, ◌++◌, [], length, min, IsNone, OnOk, IfErr, slice_get, option_map};
ghost use Rattle.hist_journal.specs.View.{entry_seen, base_seen};
ghost use Rattle.hist_journal.specs.Journal.{IsOpen, Refuses, KeepsHistory};

use crate::{Base, Bounds, Entry, ReserveError};
use std::alloc::{AllocError, Global};
use std::marker::Model;

/// The history of a session, which grows at its end. Clauses see its base, its bounds, its entries, their
/// weight and how many more there is room for.
#[derive(Drop)]
pub struct Journal<V, T> {
    base: Base<V>,
    bounds: Bounds,
    entries: Vec<Entry<V, T>>,
    weight: u64,
    room: u64,
}

impl<V, T> Model for Journal<V, T> {
    ghost use Rattle.std.specs.Prelude.{map, ◌+◌, ◌≤◌, vec_len};
    ghost use Rattle.std.specs.Vec.{vec_capacity};
    ghost use Rattle.hist_journal.specs.Journal.{JournalSeen};

    ghost Value = { JournalSeen V T };

    ghost use Rattle.hist_journal.specs.View.{entry_seen, base_seen};

    ghost view = { λ j. record { base = base_seen j.base; bounds = j.bounds; list = map entry_seen j.entries.items; weight = j.weight; room = j.room } };

    ghost invariant = { λ j. vec_len j.entries + j.room ≤ vec_capacity j.entries };
}

impl<V, T> Journal<V, T> {
    /// An empty history. It takes no memory.
    pub fn new(alloc: Global, base: Base<V>, bounds: Bounds) -> Journal<V, T>
        ensures { result ≡ record { base = base_seen base; bounds = bounds; list = []; weight = 0; room = 0 } }
    {
        Journal {
            base,
            bounds,
            entries: Vec::new(alloc),
            weight: 0,
            room: 0,
        }
    }

    /// Makes room for so many entries, unless the history is full.
    pub fn reserve(&mut self, count: u32) -> Result<(), ReserveError>
        ensures ok { OnOk result (IsOpen self.old × (count ≤ self.new.room)) }
        ensures err { IfErr result (Refuses self.old) }
        ensures room { self.old.room ≤ self.new.room }
        ensures same { KeepsHistory self.old self.new }
    {
        let entries = self.len();
        if entries >= self.bounds.entries || self.weight >= self.bounds.weight {
            return Err(ReserveError::HistoryFull {
                entries,
                weight: self.weight,
            });
        }
        self.reserve_past(count)?;
        Ok(())
    }

    /// Makes room for so many entries, also in a history that is full.
    pub fn reserve_past(&mut self, count: u32) -> Result<(), AllocError>
        ensures ok { OnOk result (count ≤ self.new.room) }
        ensures room { self.old.room ≤ self.new.room }
        ensures same { KeepsHistory self.old self.new }
    {
        if self.room < u64::from(count) {
            self.entries.reserve(count as usize)?;
            self.room = u64::from(count);
        }
        Ok(())
    }

    /// Adds an entry of this weight at the end. It takes no memory. The weight of the history stays at
    /// 2^64 - 1 once it is there.
    pub fn push(&mut self, entry: Entry<V, T>, weight: u64)
    where
        V: Drop,
        T: Drop,
        requires { 1 ≤ self.old.room }
        ensures list { self.new.list ≡ self.old.list ++ entry_seen entry ∷ [] }
        ensures weight { self.new.weight ≡ min (self.old.weight + weight) (2 ^ 64 - 1) }
        ensures room { self.new.room + 1 ≡ self.old.room }
        ensures base { self.new.base ≡ self.old.base }
        ensures bounds { self.new.bounds ≡ self.old.bounds }
    {
        self.room -= 1;
        self.weight = self.weight.saturating_add(weight);
        // The spare capacity tells the prover that the push takes no memory.
        let _capacity = self.entries.capacity();
        let _ = self.entries.push(entry);
    }

    /// How many entries there are, at most 2^64 - 1.
    pub fn len(&self) -> u64
        ensures { result ≡ length self.now.list }
    {
        self.entries.len() as u64
    }

    /// The weight of all entries together, at most 2^64 - 1.
    pub fn weight(&self) -> u64
        ensures { result ≡ self.now.weight }
    {
        self.weight
    }

    /// The entry at this place, counted from 1; none at 0 and past the end.
    pub fn entry(&self, at: u64) -> Option<&Entry<V, T>>
        ensures zero { at ≡ 0 → IsNone result }
        ensures entry { 1 ≤ at → option_map (λ e. entry_seen e.now) result ≡ slice_get self.now.list (at - 1) }
    {
        if at == 0 {
            return None;
        }
        self.entries.get((at - 1) as usize)
    }

    /// Where the history begins.
    pub fn base(&self) -> &Base<V>
        ensures { base_seen result.now ≡ self.now.base }
    {
        &self.base
    }
}
