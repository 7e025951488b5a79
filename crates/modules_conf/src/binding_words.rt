//! What the words of one line of a bindings text stand for.

ghost use Rattle.std.specs.Prelude.{◌≡◌, ◌<◌, length, map, All, Result, if◌then◌else◌};
ghost use Rattle.modules_conf.specs.Bindings.{binding_of, binding_or_fault, counts, kind_of_words, kind_or_fault, one_map, two_maps};
ghost use Rattle.modules_conf.specs.BindingRows.{checked_kind};
ghost use Rattle.modules_conf.specs.Charmaps.{names_charmaps};
ghost use Rattle.modules_conf.specs.declared.kind.Kind.{Kind};
ghost use Rattle.modules_conf.specs.declared.fault.BindFault.{BindFault};

use crate::bindings::Binding;
use crate::charmaps::charmap_word;
use crate::fault::BindFault;
use crate::kind::Kind;
use names_alias::Word;

/// Whether a line counts: it has a word, and that doesn't begin with `#`.
pub(crate) fn counts(words: &[&[u8]]) -> bool
    requires { All (λ word. 0 < length word.now) words.now }
    ensures { result ≡ counts (map (λ word. word.now) words.now) }
{
    match words {
        [] => false,
        [first, ..] => first[0] != b'#',
    }
}

/// A table over one charmap: None where the word names none.
fn read_table(line: u32, maps: &[&[u8]]) -> Result<Option<Kind>, BindFault>
    ensures { result ≡ checked_kind (kind_or_fault line (one_map (map (λ word. word.now) maps.now))) }
{
    match maps {
        [map] => Ok(match charmap_word(map) {
            Some(map) => Some(Kind::Table { map }),
            None => None,
        }),
        _ => Err(BindFault::WordCount { line }),
    }
}

/// ISO-2022-JP over two charmaps, where both words name one.
fn iso2022jp(roman: &[u8], kanji: &[u8]) -> Option<Kind>
    ensures { result ≡ (if names_charmaps (Kind.Iso2022Jp roman.now kanji.now)
        then Some (Kind.Iso2022Jp roman.now kanji.now) else None) }
{
    Some(Kind::Iso2022Jp {
        roman: charmap_word(roman)?,
        kanji: charmap_word(kanji)?,
    })
}

/// A recoding from one charmap to another, where both words name one.
fn recode(first: &[u8], second: &[u8]) -> Option<Kind>
    ensures { result ≡ (if names_charmaps (Kind.Recode first.now second.now)
        then Some (Kind.Recode first.now second.now) else None) }
{
    Some(Kind::Recode {
        first: charmap_word(first)?,
        second: charmap_word(second)?,
    })
}

/// ISO-2022-JP over two charmaps: None where a word names none.
fn read_iso2022jp(line: u32, maps: &[&[u8]]) -> Result<Option<Kind>, BindFault>
    ensures { result ≡ checked_kind (kind_or_fault line
        (two_maps (λ roman kanji. Kind.Iso2022Jp roman kanji) (map (λ word. word.now) maps.now))) }
{
    match maps {
        [roman, kanji] => Ok(iso2022jp(roman, kanji)),
        [] | [_] => Err(BindFault::WordCount { line }),
        [_, _, _, ..] => Err(BindFault::WordCount { line }),
    }
}

/// A recoding from one charmap to another: None where a word names none.
fn read_recode(line: u32, maps: &[&[u8]]) -> Result<Option<Kind>, BindFault>
    ensures { result ≡ checked_kind (kind_or_fault line
        (two_maps (λ first second. Kind.Recode first second) (map (λ word. word.now) maps.now))) }
{
    match maps {
        [first, second] => Ok(recode(first, second)),
        [] | [_] => Err(BindFault::WordCount { line }),
        [_, _, _, ..] => Err(BindFault::WordCount { line }),
    }
}

/// The kind that the words behind a name stand for: None where one of them names no charmap.
fn read_kind(line: u32, kind: &[u8], maps: &[&[u8]]) -> Result<Option<Kind>, BindFault>
    ensures { result ≡ checked_kind (kind_of_words line kind.now (map (λ word. word.now) maps.now)) }
{
    if kind == b"table".as_slice() {
        read_table(line, maps)
    } else if kind == b"iso2022jp".as_slice() {
        read_iso2022jp(line, maps)
    } else if kind == b"recode".as_slice() {
        read_recode(line, maps)
    } else {
        Err(BindFault::BadKind { line })
    }
}

/// The binding of a name, unless a word is none.
fn bind(line: u32, name: &[u8], kind: Result<Option<Kind>, BindFault>) -> Result<Binding, BindFault>
    requires { 0 < length name.now }
    ensures { (read : Result Kind BindFault) → kind ≡ checked_kind read
        → result ≡ binding_or_fault line name.now read }
{
    match kind {
        Err(fault) => Err(fault),
        Ok(None) => Err(BindFault::BadWord { line }),
        Ok(Some(kind)) => match Word::new(name) {
            Some(name) => Ok(Binding { line, name, kind }),
            None => Err(BindFault::BadWord { line }),
        },
    }
}

/// The binding that words stand for, or what is wrong with the line alone.
pub(crate) fn read_binding(line: u32, words: &[&[u8]]) -> Result<Binding, BindFault>
    requires { All (λ word. 0 < length word.now) words.now }
    ensures { result ≡ binding_of line (map (λ word. word.now) words.now) }
{
    match words {
        [name, kind, maps @ ..] => bind(line, name, read_kind(line, kind, maps)),
        _ => Err(BindFault::WordCount { line }),
    }
}
