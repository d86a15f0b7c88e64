ghost use Rattle.std.specs.Prelude.{◌≡◌, ◌<◌, ◌↔◌, ◌-◌, ◌^◌, ℕ, List, min, length, IfOk, IsTrue};
ghost use Rattle.store_traits.specs.Decoded.{MatchDecoded};

use crate::{Decoded, FileBytes};
use std::alloc::{AllocError, Global};

/// How values are written as bytes, and read back.
///
/// What a codec means is fixed by the codec and the argument alone. A clause ranges over every number and
/// every list, so `is_value` says which of them are values, and `known` shows it of a value at hand.
pub trait Codec: Drop {
    type Value: Drop;

    /// Holds of the values of the type.
    ghost is_value: { Self → Self.Value → Type 0 };

    /// The bytes read as this value.
    ghost reads: { Self → List ℕ → Self.Value → Type 0 };

    /// The one text of a value.
    ghost encoded: { Self → Self.Value → List ℕ };

    /// What an absent file stands for.
    ghost default_of: { Self → Self.Value };

    /// It does nothing, and shows that the value is one.
    fn known(&self, value: &Self::Value)
        ensures { is_value self.now value.now };

    /// `Good` with the value that the bytes read as, and `Corrupt` exactly where they read as none.
    fn decode(&self, alloc: Global, bytes: &[u8]) -> Result<Decoded<Self::Value>, AllocError>
        ensures { IfOk result (λ decoded. MatchDecoded decoded (reads self.now bytes.now) ((v : Self.Value) → reads self.now bytes.now v → ⊥)) };

    fn encode(&self, alloc: Global, value: &Self::Value) -> Result<FileBytes, AllocError>
        ensures { IfOk result (λ bytes. bytes ≡ encoded self.now value.now) };

    /// How many bytes `encode` gives, at most 2^64 - 1. It takes no memory.
    fn encoded_len(&self, value: &Self::Value) -> u64
        ensures { result ≡ min (length (encoded self.now value.now)) (2 ^ 64 - 1) };

    fn default_value(&self, alloc: Global) -> Result<Self::Value, AllocError>
        ensures { IfOk result (λ v. v ≡ default_of self.now) };

    fn equal(&self, a: &Self::Value, b: &Self::Value) -> bool
        ensures { IsTrue result ↔ (a.now ≡ b.now) };

    fn copy(&self, alloc: Global, value: &Self::Value) -> Result<Self::Value, AllocError>
        ensures { IfOk result (λ v. v ≡ value.now) };

    /// What a value is written as reads as that value. Bytes that there is memory for are fewer than 2^64.
    ghost read_back: { (codec : Self) (v : Self.Value) → is_value codec v → length (encoded codec v) < 2 ^ 64 → reads codec (encoded codec v) v };

    /// Bytes read as one value at most.
    ghost read_once: { (codec : Self) (bytes : List ℕ) (v w : Self.Value) → reads codec bytes v → reads codec bytes w → v ≡ w };

    /// What is read is a value.
    ghost read_known: { (codec : Self) (bytes : List ℕ) (v : Self.Value) → reads codec bytes v → is_value codec v };
}
