//! The reader of a bindings text.

ghost use Rattle.std.specs.Prelude.{◌≡◌, ◌≢◌, ◌<◌, ◌≤◌, length, map, All, OnOk, IfOk, IfErr, MatchResult};
ghost use Rattle.text_lines.specs.Limits.{longest_text};
ghost use Rattle.modules_conf.specs.Bindings.{bindings_of};
ghost use Rattle.modules_conf.specs.BindingRows.{with_row, Binds, RefusesRow};
ghost use Rattle.modules_conf.specs.Limits.{AreSound};

use crate::binding_words::{counts, read_binding};
use crate::bindings::Bindings;
use crate::fault::BindFault;
use crate::limits::MOST_LINES;
use indexmap::IndexSet;
use names_alias::Word;
use std::alloc::Global;
use text_lines::{first_words, next_line};

/// Takes one more line that counts into the bindings. `names` are the names that are bound.
fn take_row(
    names: &mut IndexSet<Word>,
    bindings: &mut Bindings,
    line: u32,
    words: &[&[u8]],
) -> Result<(), BindFault>
    requires some { All (λ word. 0 < length word.now) words.now }
    requires names { names.old.keys ≡ map (λ b. b.name) bindings.old }
    ensures names { OnOk result (names.new.keys ≡ map (λ b. b.name) bindings.new) }
    ensures ok { OnOk result
        (with_row bindings.old (line, map (λ word. word.now) words.now) ≡ Ok bindings.new) }
    ensures err { IfErr result (λ fault. fault ≢ BindFault.Memory
        → with_row bindings.old (line, map (λ word. word.now) words.now) ≡ Err fault) }
{
    if bindings.as_slice().len() >= MOST_LINES {
        return Err(BindFault::TooMany { line });
    }
    match read_binding(line, words) {
        Err(fault) => Err(fault),
        Ok(binding) => {
            if names.contains(&binding.name) {
                return Err(BindFault::Twice { line });
            }
            if names.insert(binding.name.copied()).is_err() {
                return Err(BindFault::Memory);
            }
            match bindings.push(binding) {
                Ok(()) => Ok(()),
                Err(_) => Err(BindFault::Memory),
            }
        }
    }
}

/// Takes one more line into the bindings. `names` are the names that are bound.
fn take_line(
    names: &mut IndexSet<Word>,
    bindings: &mut Bindings,
    number: u32,
    line: &[u8],
) -> Result<(), BindFault>
    requires names { names.old.keys ≡ map (λ b. b.name) bindings.old }
    ensures names { OnOk result (names.new.keys ≡ map (λ b. b.name) bindings.new) }
    ensures ok { OnOk result (Binds bindings.old number line.now bindings.new) }
    ensures err { IfErr result (λ fault. fault ≢ BindFault.Memory
        → RefusesRow bindings.old number line.now fault) }
{
    let words = first_words::<5>(line);
    let words = words.as_slice();
    if !counts(words) {
        return Ok(());
    }
    match take_row(names, bindings, number, words) {
        Ok(()) => Ok(()),
        Err(fault) => Err(fault),
    }
}

/// Reads a bindings text. A line whose first word begins with `#` is a comment. Each other line
/// with words is `NAME table MAP`, `NAME iso2022jp ROMAN KANJI` or `NAME recode FIRST SECOND`, and
/// no name is bound twice. The first faulty line is refused; the first line beyond 16,384 is one.
pub fn read_bindings(alloc: Global, text: &[u8]) -> Result<Bindings, BindFault>
    requires { length text.now ≤ longest_text }
    ensures value { MatchResult result
        (λ bindings. bindings_of text.now ≡ Ok bindings)
        (λ fault. fault ≢ BindFault.Memory → bindings_of text.now ≡ Err fault) }
    ensures sound { IfOk result AreSound }
{
    let mut bindings = Bindings::new(alloc);
    let mut names = IndexSet::new(alloc);
    let mut number: u32 = 0;
    let mut rest = text;
    while let Some((line, behind)) = next_line(rest) {
        number += 1;
        take_line(&mut names, &mut bindings, number, line)?;
        rest = behind;
    }
    Ok(bindings)
}
