//! The version of the calls and of their structs.

ghost use Rattle.std.specs.Prelude.{◌≡◌};

/// Returns the version of the interface to C, which changes with a struct, a number or a promise.
#[unsafe(no_mangle)]
pub extern "C" fn der_abi_version() -> u32
    ensures { result ≡ 2 }
{
    2
}
