ghost use Rattle.std.specs.Prelude.{◌≡◌, true};
ghost use Rattle.step_table.specs.Caching.{found};
ghost use Rattle.value_cache.specs.Cached.{kept_seen};
ghost use Rattle.node_core.specs.Looking.{LooksAt, behind_look, is_looking};

use super::{ReadCall, ReadState};
use shelf::{Parts, ValueOf};
use std::alloc::AllocError;
use std::sync::Arc;
use store_traits::Given;
use value_cache::Cache;

impl<P: Parts> ReadCall<P> {
    /// Looks in the cache of the call's node, where this is the version. It answers exactly where something is kept with that
    /// version; the call has then ended, also where one more owner of the value is refused. It asks for no lock and no
    /// folder, and not whether the node lives.
    pub fn look(
        &mut self,
        cache: &Cache<ValueOf<P>>,
        version: u64,
    ) -> Result<Option<Given<ValueOf<P>>>, AllocError>
        requires looking { is_looking self.old.state ≡ true }
        ensures looks { LooksAt (found (kept_seen cache.now) version) result }
        ensures call { self.new ≡ record self.old { state = behind_look result } }
    {
        let kept = match cache.look() {
            Some(kept) if kept.version() == version => kept,
            _ => {
                self.state = ReadState::First;
                return Ok(None);
            }
        };
        self.state = ReadState::Gone { kept: None };
        let value = Arc::try_clone(kept.value())?;
        Ok(Some(Given {
            edition: kept.edition(),
            value,
        }))
    }
}
