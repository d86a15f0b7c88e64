ghost use Rattle.std.specs.Prelude.{◌≡◌, ◌<◌, [], ◌∷◌, length};
ghost use Rattle.std.specs.Bool.{OnTrue, OnFalse};
ghost use Rattle.wire_codec.specs.OpenGroups.{HasInnermost, LosesInnermost};

use crate::open_group::OpenGroup;
use std::marker::Model;

/// How many groups of a message may be open at once.
const LIMIT: usize = 100;

/// The open groups of a message, the innermost first.
#[derive(Drop)]
pub(crate) struct OpenGroups {
    /// The outermost first.
    groups: [OpenGroup; LIMIT],
    count: usize,
}

impl Model for OpenGroups {
    ghost use Rattle.std.specs.Prelude.{List, ◌≡◌, ◌≤◌, length, reverse, take};
    ghost use Rattle.wire_codec.specs.declared.open_group.OpenGroup.{OpenGroup};

    ghost Value = { List OpenGroup };

    ghost view = { λ s. reverse (take s.count s.groups) };

    ghost invariant = { λ s. (s.count ≤ length s.groups) × (length s.groups ≡ 100) };
}

impl OpenGroups {
    /// With the outermost group alone.
    pub(crate) fn new(first: OpenGroup) -> OpenGroups
        ensures { result ≡ first ∷ [] }
    {
        OpenGroups {
            groups: [first; LIMIT],
            count: 1,
        }
    }

    pub(crate) fn is_empty(&self) -> bool
        ensures none { OnTrue result (self.now ≡ []) }
        ensures some { OnFalse result (0 < length self.now) }
    {
        self.count == 0
    }

    pub(crate) fn is_full(&self) -> bool
        ensures full { OnTrue result (length self.now ≡ 100) }
        ensures room { OnFalse result (length self.now < 100) }
    {
        self.count == LIMIT
    }

    pub(crate) fn innermost(&self) -> OpenGroup
        requires { 0 < length self.now }
        ensures { HasInnermost self.now result }
    {
        self.groups[self.count - 1]
    }

    pub(crate) fn push(&mut self, group: OpenGroup)
        requires { length self.old < 100 }
        ensures { self.new ≡ group ∷ self.old }
    {
        self.groups[self.count] = group;
        self.count += 1;
    }

    pub(crate) fn pop(&mut self)
        requires { 0 < length self.old }
        ensures { LosesInnermost self.old self.new }
    {
        self.count -= 1;
    }
}
