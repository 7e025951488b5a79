//! The names that an opening asks for.
ghost use Rattle.std.specs.Prelude.{◌≡◌, ◌≤◌, length};
ghost use Rattle.text_lines.specs.Limits.{longest_text};
ghost use Rattle.pair_openings.specs.Answers.{IsProper};
ghost use Rattle.pair_openings.specs.Asking.{asked_of};

use names_alias::{Aliases, caller_names_are_good};
use runtime_histories::Asked;

/// What a caller's text asks for: the name that it stands for, or why it stands for none.
pub fn asked(aliases: &Aliases, text: &[u8]) -> Asked
    requires { length text.now ≤ longest_text }
    ensures value { result ≡ asked_of aliases.now text.now }
    ensures proper { IsProper result }
{
    caller_names_are_good();
    match aliases.caller_name(text) {
        Ok(name) => Asked::Good(name),
        Err(fault) => Asked::Bad(fault),
    }
}
