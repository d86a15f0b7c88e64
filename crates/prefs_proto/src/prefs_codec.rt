ghost use Rattle.std.specs.Prelude.{[], MatchResult};
ghost use Rattle.prefs_model.specs.Map.{IsMap};
ghost use Rattle.prefs_proto.specs.Encoded.{encoded};
ghost use Rattle.prefs_proto.specs.Reads.{Reads, Detail};
ghost use Rattle.prefs_proto.specs.Found.{ValuesSettled};
ghost use Rattle.prefs_proto.specs.Laws.OneReading.{reads_once};
ghost use Rattle.prefs_proto.specs.Laws.Written.{written_reads};

use crate::decode_error::DecodeError;
use crate::map_text::{text_len, text_of};
use crate::read_map::{MapFound, read_map};
use crate::stop::Stop;
use crate::unfit::UnfitAt;
use prefs_model::{Entries, PrefEntry, PrefMap};
use std::alloc::{AllocError, Global};
use store_traits::{Codec, Decoded, FileBytes};

/// Reads and writes a map of settings as the message `PreferenceMap` of preferences.proto.
#[derive(Clone, Copy, Debug, PartialEq, Eq)]
pub struct PrefsCodec;

impl PrefsCodec {
    /// The map that the bytes read as, in time n log n for n bytes, or why they read as none.
    pub fn decode_detail(&self, alloc: Global, bytes: &[u8]) -> Result<PrefMap, DecodeError>
        ensures { MatchResult result (Reads bytes.now) (Detail bytes.now) }
    {
        let _length = bytes.len();
        let found = match read_map(alloc, bytes) {
            Ok(found) => found,
            Err(Stop::Wire(e)) => return Err(DecodeError::Wire(e)),
            Err(Stop::NoMemory) => return Err(DecodeError::NoMemory),
        };
        let MapFound {
            entries,
            texts,
            keys,
        } = found;
        if let Err(UnfitAt(place)) = texts {
            return Err(DecodeError::NotUtf8 { place });
        }
        if let Err(UnfitAt(place)) = keys {
            return Err(DecodeError::KeyTooLong { place });
        }
        settle(alloc, entries)
    }
}

impl Codec for PrefsCodec {
    type Value = PrefMap;

    ghost is_value = { λ _. IsMap };

    ghost reads = { λ _. Reads };

    ghost encoded = { λ _. encoded };

    ghost default_of = { λ _. [] };

    ghost read_back = { λ _. written_reads };

    ghost read_once = { λ _. reads_once };

    ghost read_known = { λ _ bytes pairs read. read.map };

    fn known(&self, value: &PrefMap) {
        let _ = value.pairs();
    }

    fn decode(&self, alloc: Global, bytes: &[u8]) -> Result<Decoded<PrefMap>, AllocError> {
        match self.decode_detail(alloc, bytes) {
            Ok(map) => Ok(Decoded::Good(map)),
            Err(e) => {
                if e.is_no_memory() {
                    Err(AllocError)
                } else {
                    Ok(Decoded::Corrupt)
                }
            }
        }
    }

    fn encode(&self, alloc: Global, value: &PrefMap) -> Result<FileBytes, AllocError> {
        Ok(FileBytes::new(text_of(alloc, value.pairs())?))
    }

    fn encoded_len(&self, value: &PrefMap) -> u64 {
        text_len(value.pairs())
    }

    /// An absent file is the empty map.
    fn default_value(&self, alloc: Global) -> Result<PrefMap, AllocError> {
        Ok(PrefMap::new(alloc))
    }

    fn equal(&self, a: &PrefMap, b: &PrefMap) -> bool {
        a.equal(b)
    }

    fn copy(&self, alloc: Global, value: &PrefMap) -> Result<PrefMap, AllocError> {
        value.try_clone(alloc)
    }
}

/// The map of what the last entries say, or the least key that has no value.
fn settle(alloc: Global, entries: Entries<PrefEntry>) -> Result<PrefMap, DecodeError>
    ensures { ValuesSettled entries result }
{
    match PrefMap::from_set_entries(alloc, entries) {
        Ok(Ok(map)) => {
            // A map is known by its pairs, whose keys rise.
            let _ = map.pairs();
            Ok(map)
        }
        Ok(Err(key)) => Err(DecodeError::ValueNotSet { key }),
        Err(_) => Err(DecodeError::NoMemory),
    }
}
