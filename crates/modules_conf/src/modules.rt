//! The reader of a gconv-modules text.

ghost use Rattle.std.specs.Prelude.{◌≡◌, ◌≢◌, ◌<◌, ◌≤◌, [], ◌∷◌, ◌++◌, length, OnOk, IfOk, IfErr, MatchResult};
ghost use Rattle.text_lines.specs.Limits.{longest_text};
ghost use Rattle.modules_conf.specs.Numbers.{most_lines};
ghost use Rattle.modules_conf.specs.Modules.{conf_of};
ghost use Rattle.modules_conf.specs.Reading.{Takes, Refuses, IsFewEnough};
ghost use Rattle.modules_conf.specs.Limits.{IsWithinLimits};

use crate::conf::Conf;
use crate::fault::ConfFault;
use crate::limits::MOST_LINES;
use crate::lines::{AliasLine, AliasLines, EdgeLine, EdgeLines};
use crate::words::{front_words, read_alias, read_edge};
use std::alloc::Global;
use text_lines::next_line;

/// Appends a module line, unless it is one too many.
fn push_edge(edges: &mut EdgeLines, edge: EdgeLine) -> Result<(), ConfFault>
    ensures ok { OnOk result ((length edges.old < most_lines) × (edges.new ≡ edges.old ++ edge ∷ [])) }
    ensures err { IfErr result (λ fault. fault ≢ ConfFault.Memory
        → (most_lines ≤ length edges.old) × (fault ≡ ConfFault.TooManyLines edge.line)) }
{
    if edges.as_slice().len() >= MOST_LINES {
        return Err(ConfFault::TooManyLines { line: edge.line });
    }
    match edges.push(edge) {
        Ok(()) => Ok(()),
        Err(_) => Err(ConfFault::Memory),
    }
}

/// Appends an alias line, unless it is one too many.
fn push_alias(aliases: &mut AliasLines, alias: AliasLine) -> Result<(), ConfFault>
    ensures ok { OnOk result ((length aliases.old < most_lines) × (aliases.new ≡ aliases.old ++ alias ∷ [])) }
    ensures err { IfErr result (λ fault. fault ≢ ConfFault.Memory
        → (most_lines ≤ length aliases.old) × (fault ≡ ConfFault.TooManyLines alias.line)) }
{
    if aliases.as_slice().len() >= MOST_LINES {
        return Err(ConfFault::TooManyLines { line: alias.line });
    }
    match aliases.push(alias) {
        Ok(()) => Ok(()),
        Err(_) => Err(ConfFault::Memory),
    }
}

/// Takes one line more into a configuration.
fn take_line(conf: &mut Conf, number: u32, line: &[u8]) -> Result<(), ConfFault>
    requires long { length line.now ≤ longest_text }
    requires few { IsFewEnough conf.old }
    requires passed { conf.old.passed < number }
    ensures ok { OnOk result (Takes conf.old number line.now conf.new) }
    ensures few { OnOk result (IsFewEnough conf.new) }
    ensures passed { OnOk result (conf.new.passed ≤ number) }
    ensures err { IfErr result (λ fault. fault ≢ ConfFault.Memory → Refuses conf.old number line.now fault) }
{
    let words = front_words(line);
    let words = words.as_slice();
    if words.is_empty() {
        return Ok(());
    }
    if let Some(edge) = read_edge(number, words) {
        return match push_edge(&mut conf.edges, edge) {
            Ok(()) => Ok(()),
            Err(fault) => Err(fault),
        };
    }
    if let Some(alias) = read_alias(number, words) {
        return match push_alias(&mut conf.aliases, alias) {
            Ok(()) => Ok(()),
            Err(fault) => Err(fault),
        };
    }
    conf.passed += 1;
    Ok(())
}

/// Reads a gconv-modules text. A line is cut at its first `#`. `alias A B` is an alias line and
/// `module S T M COST` a module line, where their names have normal forms; a missing cost, or one
/// that is no number from 1 to 2,147,483,647, is 1. The first module line or alias line beyond
/// 16,384 of its kind is refused.
pub fn read_modules(alloc: Global, text: &[u8]) -> Result<Conf, ConfFault>
    requires { length text.now ≤ longest_text }
    ensures value { MatchResult result
        (λ conf. conf_of text.now ≡ Ok conf)
        (λ fault. fault ≢ ConfFault.Memory → conf_of text.now ≡ Err fault) }
    ensures limits { IfOk result (λ conf. IsWithinLimits conf.edges) }
{
    let mut conf = Conf {
        edges: EdgeLines::new(alloc),
        aliases: AliasLines::new(alloc),
        passed: 0,
    };
    let mut number: u32 = 0;
    let mut rest = text;
    while let Some((line, behind)) = next_line(rest) {
        number += 1;
        take_line(&mut conf, number, line)?;
        rest = behind;
    }
    Ok(conf)
}
