//! The names that are built in.

ghost use Rattle.std.specs.Prelude.{◌≡◌, ◌<◌, ◌≤◌, [], length, slice_index_or};
ghost use Rattle.std.specs.Str.{bytes_eq};
ghost use Rattle.names_alias.specs.Builtin.{internal_name, builtin_sets, is_builtin_name};

use crate::name::Name;

/// The bytes of INTERNAL, the name of the set between all others.
fn internal_bytes() -> &'static [u8]
    ensures value { result.now ≡ internal_name }
    ensures short { length result.now ≤ 64 }
{
    b"INTERNAL//"
}

/// The bytes of a built-in set's name by its number, from 0, in the order of their conversions.
fn builtin_bytes(number: u32) -> &'static [u8]
    requires { number < 6 }
    ensures value { result.now ≡ slice_index_or builtin_sets number [] }
    ensures short { length result.now ≤ 64 }
{
    match number {
        0 => b"ASCII//",
        1 => b"UTF-8//",
        2 => b"UTF-16//",
        3 => b"UTF-16LE//",
        4 => b"UTF-16BE//",
        _ => b"UCS-4//",
    }
}

/// Whether a name is INTERNAL.
pub fn is_internal(name: &Name) -> bool
    ensures { result ≡ bytes_eq name.now internal_name }
{
    name.as_bytes() == internal_bytes()
}

/// Whether a name is that of a built-in set, or INTERNAL.
pub fn is_builtin(name: &Name) -> bool
    ensures { result ≡ is_builtin_name name.now }
{
    let bytes = name.as_bytes();
    bytes == internal_bytes()
        || bytes == builtin_bytes(0)
        || bytes == builtin_bytes(1)
        || bytes == builtin_bytes(2)
        || bytes == builtin_bytes(3)
        || bytes == builtin_bytes(4)
        || bytes == builtin_bytes(5)
}

/// INTERNAL, the name of the set between all others.
pub fn internal() -> Name
    ensures { result ≡ internal_name }
{
    Name::from_bytes(internal_bytes())
}

/// The name of a built-in set by its number, from 0, in the order of their conversions.
pub fn builtin_set(number: u32) -> Name
    requires { number < 6 }
    ensures { result ≡ slice_index_or builtin_sets number [] }
{
    Name::from_bytes(builtin_bytes(number))
}
