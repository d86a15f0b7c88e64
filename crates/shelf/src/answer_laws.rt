//! What the history of a session shows of an answer, it still shows at the end of the session. `over` says that no entry
//! behind is of a call of the client up to this one: each client makes its calls in order.
ghost use Rattle.std.specs.Prelude.{◌≡◌, ℕ, ◌++◌, List, false};
ghost use Rattle.std.specs.List.{list_any};
ghost use Rattle.store_traits.specs.declared.ids.CallId.{CallId};
ghost use Rattle.store_traits.specs.declared.read_error.ReadError.{ReadError};
ghost use Rattle.store_traits.specs.declared.update_error.UpdateError.{UpdateError};
ghost use Rattle.hist_journal.specs.declared.seen.EntrySeen.{EntrySeen};
ghost use Rattle.shelf.specs.declared.store.Store.{Store};
ghost use Rattle.shelf.specs.Acknowledged.{IsUpdated};
ghost use Rattle.shelf.specs.Causes.{HasCause, HasReadCause};
ghost use Rattle.shelf.specs.Decided.{Decided};
ghost use Rattle.shelf.specs.Entries.{is_any, is_own};
ghost use Rattle.shelf.specs.Places.{is_up_to};
ghost use Rattle.shelf.specs.Rules.{rules_of};

use store_traits::{Codec, Transform};

/// An update stays acknowledged, with its edition, where no entry behind is of its call.
pub fn updates_stay<V, T>()
    ensures { (call : CallId) (edit : T) (edition : ℕ) (list more : List (EntrySeen V T)) → list_any (is_own is_any call) more ≡ false
        → IsUpdated call edit edition list → IsUpdated call edit edition (list ++ more) }
{}

/// Of a store, a cause speaks of the base, the handler's value and the limits alone.
pub fn causes_by_the_start<C: Codec, T: Transform<Value = C::Value>, M, N>()
    ensures update { (c : C) (s : Store C.Value M) (t : Store C.Value N) → t.base ≡ s.base → t.handler ≡ s.handler → t.limits ≡ s.limits
        → (shown : ℕ) (call : CallId) (edit : T) (err : UpdateError) (list : List (EntrySeen C.Value T)) → let r = rules_of T.after T.weight_of (C.encoded c) (C.reads c) (C.default_of c) in
        HasCause r s shown call edit err list → HasCause r t shown call edit err list }
    ensures read { (c : C) (s : Store C.Value M) (t : Store C.Value N) → t.base ≡ s.base → t.handler ≡ s.handler → t.limits ≡ s.limits
        → (shown : ℕ) (call : CallId) (err : ReadError) (list : List (EntrySeen C.Value T)) → let r = rules_of T.after T.weight_of (C.encoded c) (C.reads c) (C.default_of c) in
        HasReadCause r s shown call err list → HasReadCause r t shown call err list }
{}

/// Whether an error has its cause is told by a test, for values of which one tells whether they are the same.
pub fn causes_have_a_test<C: Codec, T: Transform<Value = C::Value>, M>()
    ensures update { (same : (a b : C.Value) → Decided (a ≡ b)) (c : C) (s : Store C.Value M) (shown : ℕ) (call : CallId) (edit : T) (err : UpdateError) (list : List (EntrySeen C.Value T))
        → Decided (HasCause (rules_of T.after T.weight_of (C.encoded c) (C.reads c) (C.default_of c)) s shown call edit err list) }
    ensures read { (same : (a b : C.Value) → Decided (a ≡ b)) (c : C) (s : Store C.Value M) (shown : ℕ) (call : CallId) (err : ReadError) (list : List (EntrySeen C.Value T))
        → Decided (HasReadCause (rules_of T.after T.weight_of (C.encoded c) (C.reads c) (C.default_of c)) s shown call err list) }
{}

/// An error keeps its cause.
pub fn causes_stay<C: Codec, T: Transform<Value = C::Value>, M>()
    ensures update { (c : C) (s : Store C.Value M) (call : CallId) (list more : List (EntrySeen C.Value T)) → list_any (is_up_to call) more ≡ false
        → (shown : ℕ) (edit : T) (err : UpdateError) → let r = rules_of T.after T.weight_of (C.encoded c) (C.reads c) (C.default_of c) in
        HasCause r s shown call edit err list → HasCause r s shown call edit err (list ++ more) }
    ensures read { (c : C) (s : Store C.Value M) (call : CallId) (list more : List (EntrySeen C.Value T)) → list_any (is_up_to call) more ≡ false
        → (shown : ℕ) (err : ReadError) → let r = rules_of T.after T.weight_of (C.encoded c) (C.reads c) (C.default_of c) in
        HasReadCause r s shown call err list → HasReadCause r s shown call err (list ++ more) }
{}
