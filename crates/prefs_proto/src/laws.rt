//! The laws of the texts: each is the contract of a function that does nothing.

ghost use Rattle.std.specs.Prelude.{◌≡◌, ◌<◌, ◌^◌, ℕ, List, length};
ghost use Rattle.prefs_model.specs.declared.pref_pair.PrefPair.{PrefPair};
ghost use Rattle.prefs_model.specs.Map.{IsMap};
ghost use Rattle.prefs_proto.specs.Encoded.{encoded};
ghost use Rattle.prefs_proto.specs.Reads.{Reads, IsRefusal};
ghost use Rattle.prefs_proto.specs.declared.decode_error.DecodeError.{DecodeError};

/// Bytes are read as at most one map.
pub fn one_map_read()
    ensures { (bytes : List ℕ) (a b : List PrefPair) → Reads bytes a → Reads bytes b → a ≡ b }
{}

/// What is written of a map reads as that map, where 64 bits count its bytes.
pub fn written_is_read()
    ensures { (pairs : List PrefPair) → IsMap pairs → length (encoded pairs) < 2 ^ 64 → Reads (encoded pairs) pairs }
{}

/// What is read is a map.
pub fn map_is_read()
    ensures { (bytes : List ℕ) (pairs : List PrefPair) → Reads bytes pairs → IsMap pairs }
{}

/// Bytes are refused in one way at most, and not at all where they read as a map.
pub fn one_refusal()
    ensures same { (bytes : List ℕ) (d e : DecodeError) → IsRefusal bytes d → IsRefusal bytes e → d ≡ e }
    ensures no_map { (bytes : List ℕ) (e : DecodeError) (pairs : List PrefPair) → IsRefusal bytes e → Reads bytes pairs → ⊥ }
{}
