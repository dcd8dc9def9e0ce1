//! Texts as JSON strings.

ghost use Rattle.std.specs.Prelude.{◌≡◌, Some, IfOk, string_bytes};
ghost use Rattle.serde_json.specs.Data.{string};
ghost use Rattle.serde_json.specs.Read.{read};

use serde_json::Value;
use std::alloc::{AllocError, Global};

/// Returns a text as a JSON string (RFC 8259 section 7), in quotes. Reading the string gives the
/// text again.
pub fn quoted(alloc: Global, text: &str) -> Result<String, AllocError>
    ensures { IfOk result (λ json. read (string_bytes json) ≡ Some (string text.now)) }
{
    let value = Value::String(String::from_str(alloc, text)?);
    value.to_string(alloc)
}
