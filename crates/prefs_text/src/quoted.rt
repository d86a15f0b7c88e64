ghost use Rattle.std.specs.Prelude.{◌≡◌, ◌++◌, string_bytes, OnOk};
ghost use Rattle.json.specs.Print.{quoted};

use std::alloc::AllocError;

/// Appends the text as a JSON string with the shortest escapes.
pub(crate) fn push_quoted(out: &mut String, text: &str) -> Result<(), AllocError>
    ensures { OnOk result (string_bytes out.new ≡ string_bytes out.old ++ quoted text.now) }
{
    let Ok(json) = serde_json::to_string(*out.allocator(), &text) else {
        return Err(AllocError);
    };
    out.push_str(json.as_str())
}
