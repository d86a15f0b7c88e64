ghost use Rattle.std.specs.Prelude.{◌≡◌, ◌≤◌, ◌+◌, ◌-◌, ◌↔◌, ◌∷◌, [], ◌^◌, IsTrue, OnOk, OnErr, Some, true, length, min, vec_len};
ghost use Rattle.std.specs.Vec.{vec_capacity};
ghost use Rattle.folder_disk.specs.Contents.{Images, main_alone};
ghost use Rattle.folder_disk.specs.MainRead.{main_of};
ghost use Rattle.folder_disk.specs.Mains.{MainsSeen, only_main, kept_of, kept_by_move, first_of, first_bound, once_replaced};
ghost use Rattle.folder_disk.specs.Stops.{IsTame, MayBeLeft, image, images_of};

use crate::MainRead;
use std::alloc::{AllocError, Global};
use std::marker::Model;
use std::mem;
use store_traits::FileBytes;

/// Where main is, as it was at the last start.
#[derive(Drop)]
pub(crate) enum FirstMain {
    /// It is main still.
    Now,
    /// It stands at this index among the older ones.
    Older(usize),
    /// No stop leaves it any more.
    Aside(MainRead),
}

impl FirstMain {
    // Where it is once main has moved to this index.
    fn once_replaced(self, index: usize) -> FirstMain
        ensures { result ≡ once_replaced self index }
    {
        match self {
            FirstMain::Now => FirstMain::Older(index),
            FirstMain::Older(first) => FirstMain::Older(first),
            FirstMain::Aside(main) => FirstMain::Aside(main),
        }
    }
}

/// The main file, the older ones that a machine stop may leave in its place, and what main was at the
/// last start.
#[derive(Drop)]
pub(crate) struct Mains {
    main: MainRead,
    older: Vec<MainRead>,
    is_wild: bool,
    first: FirstMain,
    was_alone: bool,
    renames: usize,
}

// There is room among the older ones for as many renames.
impl Model for Mains {
    ghost Value = { MainsSeen };

    ghost view = { λ m. record { main = main_of m.main; kept = kept_of m.is_wild m.older.items m.main; first = first_of m.first m.main m.older.items; alone = m.was_alone; renames = m.renames } };

    ghost invariant = { λ m. (vec_len m.older + m.renames ≤ vec_capacity m.older) × (first_bound m.first ≤ vec_len m.older) };
}

impl Mains {
    /// Takes no memory.
    pub(crate) fn new(alloc: Global, main: MainRead) -> Mains
        ensures { result ≡ only_main (main_of main) }
    {
        Mains {
            main,
            older: Vec::new(alloc),
            is_wild: false,
            first: FirstMain::Now,
            was_alone: true,
            renames: 0,
        }
    }

    pub(crate) fn main(&self) -> &MainRead
        ensures { main_of result.now ≡ self.now.main }
    {
        &self.main
    }

    /// What main is now is its first from here on.
    pub(crate) fn start(&mut self)
        ensures main { self.new.main ≡ self.old.main }
        ensures kept { self.new.kept ≡ self.old.kept }
        ensures first { self.new.first ≡ self.old.main }
        ensures alone { IsTrue self.new.alone ↔ (self.old.kept ≡ Images (self.old.main ∷ [])) }
        ensures renames { self.new.renames ≡ self.old.renames }
    {
        self.was_alone = !self.is_wild && self.older.is_empty();
        self.first = FirstMain::Now;
    }

    /// Takes the memory for one rename.
    pub(crate) fn make_room(&mut self) -> Result<(), AllocError>
        ensures ok { OnOk result (self.new ≡ record self.old { renames = 1 }) }
        ensures err { OnErr result (self.new ≡ self.old) }
    {
        self.older.reserve(1)?;
        self.renames = 1;
        Ok(())
    }

    /// Makes these bytes main, which were brought to the disk or not.
    #[tactic(auto, using(crate::proofs::MainsLemmas::first_once_replaced, crate::proofs::MainsLemmas::kept_once_replaced, crate::proofs::MainsLemmas::bound_once_replaced))]
    pub(crate) fn replace(&mut self, bytes: FileBytes, is_synced: bool)
        requires { 1 ≤ self.old.renames }
        ensures { self.new ≡ record self.old { main = Some bytes; kept = kept_by_move is_synced bytes self.old.kept; renames = self.old.renames - 1 } }
    {
        // Main is moved aside and not dropped, since it may be the first.
        let first = mem::replace(&mut self.first, FirstMain::Now);
        self.first = first.once_replaced(self.older.len());
        let old = mem::replace(&mut self.main, MainRead::Bytes(bytes));
        let _ = self.older.push(old);
        self.is_wild |= !is_synced;
        self.renames -= 1;
    }

    /// Drops the older ones, but for the first.
    pub(crate) fn keep_now(&mut self)
        ensures { self.new ≡ record self.old { kept = main_alone self.old.kept self.old.main } }
    {
        if let FirstMain::Older(index) = self.first {
            self.first = FirstMain::Aside(self.older.swap_remove(index));
        }
        self.older.clear();
    }

    /// How many images a stop may leave, at most 2^32 - 1.
    #[tactic(auto, using(crate::proofs::StopLemmas::length_images))]
    pub(crate) fn images(&self) -> u32
        requires { IsTame self.now.kept }
        ensures { result ≡ min (length (images_of self.now.kept)) (2 ^ 32 - 1) }
    {
        u32::try_from(self.older.len() + 1).unwrap_or(u32::MAX)
    }

    /// Makes this image main, as a stop may leave it, and drops the others.
    #[tactic(auto, using(crate::proofs::StopLemmas::image_older, crate::proofs::StopLemmas::image_now, crate::proofs::StopLemmas::image_is_left))]
    pub(crate) fn stop(&mut self, choice: u32)
        requires { IsTame self.old.kept }
        ensures after { self.new ≡ record (only_main (image choice (images_of self.old.kept))) { renames = self.old.renames } }
        ensures left { MayBeLeft self.old.kept (image choice (images_of self.old.kept)) }
    {
        let index = choice as usize;
        if index < self.older.len() {
            self.main = self.older.swap_remove(index);
        }
        self.older.clear();
        self.first = FirstMain::Now;
        self.was_alone = true;
    }
}
