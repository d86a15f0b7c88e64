ghost use Rattle.std.specs.Prelude.{All};
ghost use Rattle.replay_run.specs.TrueCaches.{IsTrueCache};

use crate::client::{Client, Settings};
use prefs_model::PrefMap;
use shelf::Shelf;
use store_traits::PlainWord;
use value_cache::Cache;

mod closing;
mod lines;
mod opening;
mod rounds;

/// A session in progress: the state that its nodes share, and the clients in the order of their declaration.
#[derive(Drop)]
pub(crate) struct RunningSession<'s> {
    shelf: Shelf<Settings>,
    word: PlainWord,
    /// What each node keeps of the values that it read or wrote, in the order of the nodes.
    caches: Vec<Cache<PrefMap>>,
    clients: Vec<Client<'s>>,
    /// Each cache keeps nothing, or the version, the value and the edition of a quiet prefix of the history.
    pub ghost cached: { ∥ All (IsTrueCache shelf) caches.items ∥₁ },
}
