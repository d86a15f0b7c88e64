use crate::{View, ViewOf};
use atomic_table::TableRule;
use hist_journal::Listed;
use std::snapshot::Snapshot;

/// The word that is raised.
pub(crate) const VERSION: usize = 0;

/// The next ticket to be drawn.
pub(crate) const TICKET: usize = 1;

/// The ticket whose turn it is.
pub(crate) const SERVING: usize = 2;

/// The slot of the state.
pub(crate) const STATE: usize = 0;

/// The rule of a room's table. The table's key is the state as it was when the room was made.
pub struct TurnRule;

impl<S: Listed> TableRule<Option<S>, ViewOf<S>, Snapshot<S>> for TurnRule {
    ghost use Rattle.version_room.specs.Rule.{Keeps};
    ghost use Rattle.version_room.specs.Views.{first_view};

    ghost holds = { λ key. Keeps S.meaning (S.meaning.head key.value) };

    ghost first = { λ key. first_view (S.meaning.head key.value) };
}
