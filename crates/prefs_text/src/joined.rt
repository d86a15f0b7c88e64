ghost use Rattle.std.specs.Prelude.{◌≡◌, ◌++◌, string_bytes, OnOk};
ghost use Rattle.std.specs.List.{join_by};

use std::alloc::AllocError;

/// What has one text.
pub(crate) trait Printed {
    ghost use Rattle.std.specs.Prelude.{List, ℕ};

    /// The text's bytes.
    ghost text: { Self → List ℕ };

    /// Appends the text.
    fn push_to(&self, out: &mut String) -> Result<(), AllocError>
        ensures { OnOk result (string_bytes out.new ≡ string_bytes out.old ++ text self.now) };
}

/// Appends the texts of the items, joined by the separator.
pub(crate) fn push_joined<T: Printed>(
    out: &mut String,
    items: &[T],
    separator: &str,
) -> Result<(), AllocError>
    ensures { OnOk result (string_bytes out.new ≡ string_bytes out.old ++ join_by T.text separator.now items.now) }
{
    if let [first, others @ ..] = items {
        first.push_to(out)?;
        for item in others {
            out.push_str(separator)?;
            item.push_to(out)?;
        }
    }
    Ok(())
}
