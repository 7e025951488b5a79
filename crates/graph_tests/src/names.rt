//! The happy path of each call, with the names that texts spell.

use crate::small::{add_bytes, add_name_fault, check, name, short};
use names_alias::{Aliases, Word, builtin_set, internal, is_builtin, normal};
use std::alloc::{AllocError, Global};

/// Appends the normal form of a text, or why it is no name.
fn add_normal(answers: &mut String, text: &str) -> Result<(), AllocError> {
    match normal(short(text)) {
        Ok(name) => add_bytes(answers, name.as_bytes()),
        Err(fault) => add_name_fault(answers, fault),
    }
}

/// Appends those of some texts, which bars part.
fn normal_forms(alloc: Global, texts: &str) -> Result<String, AllocError> {
    let mut answers = String::new(alloc);
    for text in texts.split('|') {
        add_normal(&mut answers, text)?;
    }
    Ok(answers)
}

const NAMES: &str = " utf 8|iso-10646/ucs4/|Utf-16le|a/b//|ISO_8859-1:1987//|\
aaaaaaaaaaaaaaaaaaaaaaaaaaaaaaaaaaaaaaaaaaaaaaaaaaaaaaaaaaaaaa";

const FORMS: &str = "UTF8// ISO-10646/UCS4/ UTF-16LE// A/B/ ISO_8859-1:1987// \
AAAAAAAAAAAAAAAAAAAAAAAAAAAAAAAAAAAAAAAAAAAAAAAAAAAAAAAAAAAAAA// ";

#[test]
fn makes_normal_forms(rt: HostRuntime) {
    check(&rt, normal_forms(rt.alloc(), NAMES), FORMS);
}

const NO_NAMES: &str = "UTF-8//TRANSLIT|// x||//|\"'|\
aaaaaaaaaaaaaaaaaaaaaaaaaaaaaaaaaaaaaaaaaaaaaaaaaaaaaaaaaaaaaaa";

const FAULTS: &str = "Suffix { at: 7 } Suffix { at: 3 } Empty Empty Empty LongName { len: 65 } ";

#[test]
fn tells_the_first_cause(rt: HostRuntime) {
    check(&rt, normal_forms(rt.alloc(), NO_NAMES), FAULTS);
}

/// The built-in sets, each with a sign where it isn't known as one.
fn built_in(alloc: Global) -> Result<String, AllocError> {
    let mut answers = String::new(alloc);
    for number in 0..6 {
        let set = builtin_set(number);
        add_bytes(&mut answers, set.as_bytes())?;
        if !is_builtin(&set) {
            answers.push_str("? ")?;
        }
    }
    Ok(answers)
}

/// The set between all others is built in, as is its copy; another name isn't.
fn knows_internal() -> bool {
    let set = internal();
    is_builtin(&set) && set.copied() == set && !is_builtin(&name("latin1"))
}

const SETS: &str = "ASCII// UTF-8// UTF-16// UTF-16LE// UTF-16BE// UCS-4// ";

#[test]
fn knows_the_built_in_names(rt: HostRuntime) {
    check(&rt, built_in(rt.alloc()), SETS);
    assert!(rt; knows_internal());
}

/// Whether bytes are a word, which its copy equals.
fn is_word(bytes: &[u8]) -> bool {
    match Word::new(bytes) {
        Some(word) => word.copied() == word && word.as_bytes().len() == bytes.len(),
        None => false,
    }
}

#[test]
fn bounds_words(rt: HostRuntime) {
    let bytes = [b'x'; 65];
    assert!(rt; is_word(&bytes[..64]));
    assert!(rt; !is_word(&bytes) && !is_word(&bytes[..0]));
}

/// Appends the name that callers mean by a text.
pub fn add_caller_name(
    answers: &mut String,
    aliases: &Aliases,
    text: &str,
) -> Result<(), AllocError> {
    match aliases.caller_name(short(text)) {
        Ok(name) => add_bytes(answers, name.as_bytes()),
        Err(fault) => add_name_fault(answers, fault),
    }
}

/// Appends those of some texts.
pub fn add_caller_names(
    answers: &mut String,
    aliases: &Aliases,
    texts: &str,
) -> Result<(), AllocError> {
    for text in texts.split(' ') {
        add_caller_name(answers, aliases, text)?;
    }
    answers.push_str("\n")
}

/// Adds aliases: that of x is the first that is added, and that of y and z one of a set that is built in.
fn add_aliases(aliases: &mut Aliases) -> Result<(), AllocError> {
    aliases.add(&name("x"), &name("y"))?;
    aliases.add(&name("y"), &builtin_set(1))?;
    aliases.add(&name("x"), &builtin_set(0))?;
    aliases.add(&name("z"), &internal())
}

/// Appends what names mean before there are aliases, with some, and once x is a set.
fn add_meanings(answers: &mut String, aliases: &mut Aliases) -> Result<(), AllocError> {
    add_caller_names(answers, aliases, "utf8 us-ascii internal")?;
    add_aliases(aliases)?;
    add_caller_names(answers, aliases, "X z")?;
    add_bytes(answers, aliases.resolve(&name("y")).as_bytes())?;
    aliases.fix(&name("x"))?;
    add_caller_names(answers, aliases, "x")
}

fn meanings(alloc: Global) -> Result<String, AllocError> {
    let mut answers = String::new(alloc);
    let mut aliases = Aliases::new(alloc);
    let added = add_meanings(&mut answers, &mut aliases);
    match added {
        Ok(()) => Ok(answers),
        Err(fault) => Err(fault),
    }
}

const MEANINGS: &str = "UTF-8// ASCII// Reserved \nY// Reserved \nUTF-8// X// \n";

#[test]
fn resolves_once(rt: HostRuntime) {
    check(&rt, meanings(rt.alloc()), MEANINGS);
}
