ghost use Rattle.std.specs.Prelude.{◌≡◌, ◌↔◌, Bool, true, IsTrue};

/// Where in a word a byte stands.
#[derive(Clone, Copy)]
pub(crate) enum Place {
    /// Before its first byte.
    Start,
    /// In a word without marks, or behind a quoted text or a list that is closed.
    Outside,
    /// In a quoted text.
    Quoted,
    /// Behind a backslash in a quoted text.
    Escaped,
    /// In a list, outside its quoted texts.
    Listed,
    /// In a quoted text of a list.
    ListedQuoted,
    /// Behind a backslash in a quoted text of a list.
    ListedEscaped,
}

impl Place {
    ghost use Rattle.script_words.specs.Place.{after, ends_at_space};

    /// Whether this byte, which is a space then, ends the word.
    pub(crate) fn ends_at(self, byte: u8) -> bool
        ensures { IsTrue result ↔ (byte ≡ 32) × (ends_at_space self ≡ true) }
    {
        byte == b' ' && matches!(self, Place::Start | Place::Outside)
    }

    /// The place behind this byte.
    pub(crate) fn after(self, byte: u8) -> Place
        ensures { result ≡ after self byte }
    {
        match (self, byte) {
            (Place::Start, b'"') => Place::Quoted,
            (Place::Start, b'[') => Place::Listed,
            (Place::Start | Place::Outside, _) => Place::Outside,
            (Place::Quoted, b'"') => Place::Outside,
            (Place::Quoted, b'\\') => Place::Escaped,
            (Place::Quoted | Place::Escaped, _) => Place::Quoted,
            (Place::Listed, b']') => Place::Outside,
            (Place::Listed, b'"') => Place::ListedQuoted,
            (Place::ListedQuoted, b'"') => Place::Listed,
            (Place::ListedQuoted, b'\\') => Place::ListedEscaped,
            (Place::Listed, _) => Place::Listed,
            (Place::ListedQuoted | Place::ListedEscaped, _) => Place::ListedQuoted,
        }
    }
}
