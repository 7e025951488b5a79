//! The long form of the words, read by clap.

ghost use Rattle.std.specs.Prelude.{◌≡◌, ◌≢◌, IfOk, List, ℕ, map, string_bytes, false};
ghost use Rattle.clap.specs.Words.{app_of, rule_of, with_rule};
ghost use Rattle.batch_words.specs.Command.{option_rule, the_app, Matched};

use crate::requests::Refusal;
use clap::error::ErrorKind;
use clap::{Arg, ArgMatches, Command};
use std::alloc::{AllocError, Global};

/// An option of one text value.
fn option<'a>(alloc: Global, name: &'a str) -> Arg<'a>
    ensures rule { rule_of result ≡ option_rule name.entry.now }
    ensures local { result.global ≡ false }
{
    Arg::new(alloc, name).long(name)
}

/// The command with one option more.
fn with_option<'a>(
    alloc: Global,
    command: Command<'a>,
    name: &'a str,
) -> Result<Command<'a>, AllocError>
    ensures { IfOk result (λ c. app_of c
        ≡ with_rule (app_of command.entry) (option_rule name.entry.now)) }
{
    command.arg(option(alloc, name))
}

/// The command of the long form. It has no word of its own kind, and nothing that must be there.
fn command<'a>(alloc: Global) -> Result<Command<'a>, AllocError>
    ensures { IfOk result (λ c. app_of c ≡ the_app) }
{
    let command = Command::new(alloc, "iconv_batch").no_binary_name(true);
    let command = with_option(alloc, command, "modules")?;
    let command = with_option(alloc, command, "bindings")?;
    let command = with_option(alloc, command, "charmaps")?;
    let command = with_option(alloc, command, "jobs")?;
    let command = with_option(alloc, command, "workers")?;
    let command = with_option(alloc, command, "pages")?;
    let command = with_option(alloc, command, "journal")?;
    with_option(alloc, command, "generate")
}

/// Why words are refused: all kinds but want of memory are one.
fn refusal_of(kind: ErrorKind) -> Refusal
    ensures { result ≡ Refusal.Usage → kind ≢ ErrorKind.OutOfMemory }
{
    if kind == ErrorKind::OutOfMemory {
        Refusal::Memory
    } else {
        Refusal::Usage
    }
}

/// The matches of the words, which name options and their values alone.
pub fn matched<'a>(alloc: Global, words: &'a [String]) -> Result<ArgMatches<'a>, Refusal>
    ensures { Matched (map string_bytes words.entry.now) result }
{
    let Ok(command) = command(alloc) else {
        return Err(Refusal::Memory);
    };
    match command.try_get_matches_from(words) {
        Ok(matches) => Ok(matches),
        Err(error) => Err(refusal_of(error.kind())),
    }
}
