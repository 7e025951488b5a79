//! The sets by name.

use step_unicode::Uni;

/// The set of a name, as `iconv` spells it.
pub fn set_named(name: &str) -> Option<Uni> {
    match name {
        "ASCII" => Some(Uni::Ascii),
        "UTF-8" => Some(Uni::Utf8),
        "UTF-16" => Some(Uni::Utf16),
        "UTF-16LE" => Some(Uni::Utf16Le),
        "UTF-16BE" => Some(Uni::Utf16Be),
        "UCS-4" => Some(Uni::Ucs4),
        _ => None,
    }
}
