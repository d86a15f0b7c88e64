//! What a look of a read that answers takes, beside what no look can do without.
use anyhow::Result;
use folder_disk::MemFolder;
use node_core::ReadCall;
use prefs_model::PrefMap;
use prefs_proto::PrefsCodec;
use replay_run::PrefsParts;
use std::alloc::Global;
use std::hint::black_box;
use std::sync::Arc;
use std::time::Instant;
use store_traits::{CallId, ClientId, Codec, NodeId, PlainWord, Word};
use value_cache::{Cache, CachedValue};

/// How many looks, or copies, are done in a round.
const ROUND_TIMES: u32 = 1_000_000;

/// How many rounds there are, of which the fastest counts.
const ROUNDS: u32 = 15;

/// The call that looks.
const READ: CallId = CallId {
    node: NodeId(0),
    client: ClientId(0),
    number: 1,
};

/// Prints how many nanoseconds a million looks took that answer: each loads the version word, begins a read, and looks in
/// a cache that keeps a value of that version. Then how many as many copies took: each loads the version word, and makes
/// one more owner of a value. Their rounds take turns, so that other work of the machine meets both.
pub fn run(rt: &HostRuntime) -> Result<()> {
    let value = Arc::new(rt.alloc(), PrefsCodec.default_value(rt.alloc())?)?;
    let mut cache = Cache::new();
    cache.publish(CachedValue::new(0, 0, Arc::try_clone(&value)?));
    let mut looks = u128::MAX;
    let mut copies = u128::MAX;
    for _ in 0..ROUNDS {
        looks = looks.min(look_nanoseconds(rt, &cache)?);
        copies = copies.min(copy_nanoseconds(rt, &value)?);
    }
    println!(rt; "look {ROUND_TIMES} {looks}")?;
    println!(rt; "copy {ROUND_TIMES} {copies}")?;
    Ok(())
}

fn look_nanoseconds(rt: &HostRuntime, cache: &Cache<PrefMap>) -> Result<u128> {
    let mut word = PlainWord::new();
    let start = Instant::now(rt)?;
    for _ in 0..ROUND_TIMES {
        let version = black_box(&mut word).load();
        let mut read: ReadCall<PrefsParts<MemFolder>> = ReadCall::new(READ);
        let _ = black_box(read.look(black_box(cache), version)?);
    }
    Ok(start.elapsed(rt)?.as_nanos())
}

fn copy_nanoseconds(rt: &HostRuntime, value: &Arc<PrefMap>) -> Result<u128> {
    let mut word = PlainWord::new();
    let start = Instant::now(rt)?;
    for _ in 0..ROUND_TIMES {
        let _ = black_box(black_box(&mut word).load());
        let _ = black_box(Arc::try_clone(black_box(value))?);
    }
    Ok(start.elapsed(rt)?.as_nanos())
}
