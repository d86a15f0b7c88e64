//! A cache as a process uses it.
use crate::{Cache, CachedValue, caches_stay_true};
use std::alloc::{AllocError, Global};
use std::sync::Arc;
use std::test::Fail;

fn cached(
    alloc: Global,
    version: u64,
    edition: u64,
    value: u32,
) -> Result<CachedValue<u32>, AllocError> {
    Ok(CachedValue::new(version, edition, Arc::new(alloc, value)?))
}

/// Whether just this is kept.
fn keeps(cache: &Cache<u32>, version: u64, edition: u64, value: u32) -> bool {
    cache.look().is_some_and(|kept| {
        kept.version() == version && kept.edition() == edition && **kept.value() == value
    })
}

#[test]
fn the_greater_version_is_kept(rt: HostRuntime) -> Result<(), Fail> {
    let alloc = rt.alloc();
    let mut cache = Cache::new();
    assert!(rt; cache.look().is_none());
    cache.publish(cached(alloc, 3, 2, 30)?);
    assert!(rt; keeps(&cache, 3, 2, 30));
    cache.publish(cached(alloc, 2, 1, 20)?);
    cache.publish(cached(alloc, 3, 3, 31)?);
    assert!(rt; keeps(&cache, 3, 2, 30));
    cache.publish(cached(alloc, 4, 3, 40)?);
    assert!(rt; keeps(&cache, 4, 3, 40));
    cache.empty();
    assert!(rt; cache.look().is_none());
    Ok(())
}

#[test]
fn the_law_is_that_of_concrete_caches() {
    caches_stay_true::<u32, u8>();
}
