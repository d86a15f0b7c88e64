//! The laws of the wire format, each the contract of a function that does nothing.

ghost use Rattle.std.specs.Prelude.{◌≡◌, ℕ, ◌+◌, ◌*◌, ◌^◌, ◌<◌, ◌≤◌, ◌++◌, List, length};
ghost use Rattle.wire_codec.specs.declared.wire_error.WireError.{WireError};
ghost use Rattle.wire_codec.specs.Varint.{IsVarint, IsShortest};
ghost use Rattle.wire_codec.specs.Payload.{PayloadSeen};
ghost use Rattle.wire_codec.specs.Fields.{FieldSeen, IsBody, IsField, Fields};
ghost use Rattle.wire_codec.specs.Faults.{FieldFault};
ghost use Rattle.wire_codec.specs.Text.{IsWritable, varint_text, field_text, written_field};

/// Bytes are one list of fields at most.
pub fn one_reading()
    ensures { (at : ℕ) (bytes : List ℕ) (xs ys : List FieldSeen) → Fields at bytes xs → Fields at bytes ys → xs ≡ ys }
{}

/// No field begins another, so a field that was written is read again whatever follows it.
pub fn one_first_field()
    ensures { (at : ℕ) (a b x y : List ℕ) (f g : FieldSeen) → IsField at a f → IsField at b g → a ++ x ≡ b ++ y → (f ≡ g) × (a ≡ b) }
{}

/// Bytes that begin with a field do not begin with a fault, and they begin with one fault at most.
pub fn one_first_fault()
    ensures field { (at : ℕ) (a x : List ℕ) (f : FieldSeen) (e : WireError) → IsField at a f → FieldFault at (a ++ x) e → ⊥ }
    ensures fault { (at : ℕ) (bytes : List ℕ) (d e : WireError) → FieldFault at bytes d → FieldFault at bytes e → d ≡ e }
{}

/// What is written of a field is that field.
pub fn written_is_read()
    ensures { (at number : ℕ) (payload : PayloadSeen) → 1 ≤ number → number < 2 ^ 29 → IsWritable payload
        → IsField at (field_text number payload) (written_field at number payload) }
{}

/// What is written of a number is a varint of it, and none is shorter.
pub fn shortest_varint()
    ensures varint { (n : ℕ) → n < 2 ^ 64 → IsVarint (varint_text n) n }
    ensures shortest { (n : ℕ) → n < 2 ^ 64 → IsShortest (varint_text n) n }
{}

/// What may stand in a group is what may stand in a message, and there a hundred groups may be open.
pub fn group_holds_fields()
    ensures message { (at : ℕ) (bytes : List ℕ) (fields : List FieldSeen) → Fields at bytes fields → IsBody 100 bytes }
    ensures group { (at : ℕ) (bytes : List ℕ) → IsBody 100 bytes → (fields : List FieldSeen) × Fields at bytes fields }
{}
