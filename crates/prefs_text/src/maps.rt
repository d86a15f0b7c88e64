ghost use Rattle.std.specs.Prelude.{◌≡◌, ◌++◌, string_bytes, OnOk, IfOk};
ghost use Rattle.prefs_text.specs.MapText.{map_text, pair_text};

use crate::joined::{Printed, push_joined};
use crate::quoted::push_quoted;
use crate::values::push_value;
use prefs_model::{PrefMap, PrefPair, PrefText};
use std::alloc::{AllocError, Global};

/// The text of the map: its pairs in rising order of their keys, between braces.
pub fn map_text(alloc: Global, map: &PrefMap) -> Result<PrefText, AllocError>
    ensures { IfOk result (λ text. text ≡ map_text map.now) }
{
    let mut text = String::new(alloc);
    push_map(&mut text, map)?;
    Ok(PrefText::new(text))
}

/// Appends the text of the map.
pub fn push_map(out: &mut String, map: &PrefMap) -> Result<(), AllocError>
    ensures { OnOk result (string_bytes out.new ≡ string_bytes out.old ++ map_text map.now) }
{
    out.push_str("{")?;
    push_joined(out, map.pairs(), ", ")?;
    out.push_str("}")
}

/// Appends the text of the pair: the quoted key, a space, and the value's text.
pub fn push_pair(text: &mut String, pair: &PrefPair) -> Result<(), AllocError>
    ensures { OnOk result (string_bytes text.new ≡ string_bytes text.old ++ pair_text pair.now) }
{
    push_quoted(text, pair.key.as_str())?;
    text.push_str(" ")?;
    push_value(text, &pair.value)
}

impl Printed for PrefPair {
    ghost text = { pair_text };

    fn push_to(&self, out: &mut String) -> Result<(), AllocError> {
        push_pair(out, self)
    }
}
