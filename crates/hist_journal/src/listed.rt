/// A value that a room can hold. It stands for a head, which stays the same for good, for a list of entries,
/// which grows at its end, and for a holding: what it holds for one client, or nothing.
pub trait Listed {
    ghost use Rattle.std.specs.Prelude.{List, ◌++◌};
    ghost use Rattle.hist_journal.specs.Meaning.{Meaning};

    /// No value of these three types need be made.
    type Head;

    type Entry;

    type Holding;

    ghost meaning: { Meaning Self Self.Head Self.Entry Self.Holding };

    /// It does nothing, and shows that the value's list is lawful.
    fn show_lawful(&self)
        ensures { meaning.lawful (meaning.head self.now) (meaning.list self.now) };

    /// A prefix of a lawful list is lawful.
    ghost prefix_lawful: { (h : Self.Head) (front back : List Self.Entry) → meaning.lawful h (front ++ back) → meaning.lawful h front };

    /// A holding that has lapsed stays lapsed as the list grows.
    ghost stays_lapsed: { (h : Self.Holding) (front back : List Self.Entry) → meaning.lapsed h front → meaning.lapsed h (front ++ back) };
}
