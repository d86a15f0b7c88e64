ghost use Rattle.std.specs.Prelude.{◌≡◌, ◌++◌, codes, string_bytes, OnOk};
ghost use Rattle.std.specs.List.{join_by};

use crate::joined::{Printed, push_joined};
use crate::quoted::push_quoted;
use hist_journal::PrefName;
use prefs_model::PrefText;
use std::alloc::AllocError;

/// Appends the list of the items, joined by commas, between brackets.
pub(crate) fn push_list<T: Printed>(out: &mut String, items: &[T]) -> Result<(), AllocError>
    ensures { OnOk result (string_bytes out.new ≡ string_bytes out.old ++ codes "[" ++ join_by T.text (codes ",") items.now ++ codes "]") }
{
    out.push_str("[")?;
    push_joined(out, items, ",")?;
    out.push_str("]")
}

impl Printed for PrefText {
    ghost use Rattle.json.specs.Print.{quoted};

    ghost text = { quoted };

    fn push_to(&self, out: &mut String) -> Result<(), AllocError> {
        push_quoted(out, self.as_str())
    }
}

impl Printed for PrefName {
    ghost use Rattle.json.specs.Print.{quoted};

    ghost text = { quoted };

    fn push_to(&self, out: &mut String) -> Result<(), AllocError> {
        push_quoted(out, self.as_str())
    }
}
