//! Where reading stands in a message.

mod field;
mod group;
mod payload;
mod tag;
mod varint;

ghost use Rattle.std.specs.Prelude.{◌≡◌, ◌+◌, ◌∷◌, [], ◌<◌, ◌^◌, length, MatchOption};
ghost use Rattle.std.specs.Bool.{OnTrue, OnFalse};
ghost use Rattle.wire_codec.specs.Cursor.{CursorSeen, Passes};

use std::marker::Model;

/// The bytes that are left of a message. A place is that of the message's end without their number.
#[derive(Drop)]
pub(crate) struct Cursor<'a> {
    left: &'a [u8],
    end: u64,
}

impl<'a> Model for Cursor<'a> {
    ghost use Rattle.std.specs.Prelude.{◌-◌, ◌≤◌, length};
    ghost use Rattle.wire_codec.specs.Cursor.{CursorSeen};

    ghost Value = { CursorSeen };

    ghost view = { λ c. record { rest = c.left.now; place = c.end - length c.left.now } };

    ghost invariant = { λ c. length c.left.now ≤ c.end };
}

impl<'a> Cursor<'a> {
    /// At the first of the bytes, whose place is `offset`.
    pub(crate) fn new(bytes: &'a [u8], offset: u64) -> Cursor<'a>
        requires { offset + length bytes.now < 2 ^ 64 }
        ensures { result ≡ record { rest = bytes.entry.now; place = offset } }
    {
        Cursor {
            left: bytes,
            end: offset + bytes.len() as u64,
        }
    }

    /// A second cursor at the same place.
    pub(crate) fn copied(&self) -> Cursor<'a>
        ensures { result ≡ self.now }
    {
        Cursor {
            left: self.left,
            end: self.end,
        }
    }

    /// The place of the next byte, or of the end.
    #[inline]
    pub(crate) fn place(&self) -> u64
        ensures { result ≡ self.now.place }
    {
        self.end - self.left.len() as u64
    }

    #[inline]
    pub(crate) fn is_at_end(&self) -> bool
        ensures end { OnTrue result (self.now.rest ≡ []) }
        ensures left { OnFalse result (0 < length self.now.rest) }
    {
        self.left.is_empty()
    }

    /// Passes one byte, unless none is left.
    #[inline]
    pub(crate) fn byte(&mut self) -> Option<u8>
        ensures { MatchOption result ((self.old.rest ≡ []) × (self.new ≡ self.old)) (λ b. Passes self.old (b ∷ []) self.new) }
    {
        match self.left {
            [] => None,
            [first, after @ ..] => {
                let first = *first;
                self.left = after;
                Some(first)
            }
        }
    }

    /// Passes that many bytes, unless fewer are left.
    #[inline]
    pub(crate) fn take(&mut self, count: u64) -> Option<&'a [u8]>
        ensures { MatchOption result ((length self.old.rest < count) × (self.new ≡ self.old)) (λ text. (length text.now ≡ count) × Passes self.old text.now self.new) }
    {
        if count > self.left.len() as u64 {
            return None;
        }
        let (text, after) = self.left.split_at(count as usize);
        self.left = after;
        Some(text)
    }
}
