use crate::{EntrySeen, Journal, JournalHead, Listed};

/// A journal by itself: every list is lawful, and it holds nothing.
impl<V, T> Listed for Journal<V, T> {
    ghost use Rattle.hist_journal.specs.ListedJournal.{journal_meaning};

    type Head = JournalHead<V>;

    type Entry = EntrySeen<V, T>;

    type Holding = ();

    ghost meaning = { journal_meaning };

    fn show_lawful(&self) {}

    ghost prefix_lawful = { λ h front back lawful. tt };

    ghost stays_lapsed = { λ h front back lapsed. tt };
}
