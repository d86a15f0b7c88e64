ghost use Rattle.std.specs.Prelude.{◌≡◌, ℕ, ◌+◌, ◌-◌, ◌^◌, ◌<◌};

use std::marker::Model;

/// The version of a store: a number that is raised.
///
/// Beside its number a word has what it was made with, plain data of its type's own, which no call changes
/// that is lent the word.
pub trait Word {
    type Made;

    ghost number: { Self → ℕ };

    ghost made: { Self → Self.Made };

    /// Whether the calls may be made, which stays as it is, since `made` does.
    ghost ready: { Self.Made → Type 0 };

    /// Answers the number.
    fn load(&mut self) -> u64
        requires { ready (made self.old) }
        ensures value { result ≡ number self.old }
        ensures number { number self.new ≡ number self.old }
        ensures made { made self.new ≡ made self.old };

    /// Adds one.
    fn raise(&mut self)
        requires ready { ready (made self.old) }
        requires low { number self.old < 2 ^ 64 - 1 }
        ensures number { number self.new ≡ number self.old + 1 }
        ensures made { made self.new ≡ made self.old };
}

/// A version word for one thread.
#[derive(Debug, Drop)]
pub struct PlainWord {
    number: u64,
}

impl Model for PlainWord {
    ghost Value = { ℕ };

    ghost view = { λ w. w.number };
}

impl PlainWord {
    /// A word at 0.
    pub fn new() -> PlainWord
        ensures { result ≡ 0 }
    {
        PlainWord { number: 0 }
    }
}

impl Word for PlainWord {
    type Made = ();

    ghost number = { λ w. w };

    ghost made = { λ w. tt };

    ghost ready = { λ _. Unit {0} };

    fn load(&mut self) -> u64 {
        self.number
    }

    fn raise(&mut self) {
        self.number += 1;
    }
}
