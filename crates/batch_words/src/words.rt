//! From the words to what they ask for.

ghost use Rattle.std.specs.Prelude.{◌≡◌, ◌≤◌, ◌+◌, ◌*◌, ◌^◌, ◌<◌, Some, map, length, IfOk, IfSome, option_map, string_bytes};
ghost use Rattle.batch_words.specs.Numbers.{digits_after, number_in, number_or};
ghost use Rattle.batch_words.specs.Asked.{Answers, asked, generated_asked, long_asked, long_form, request_of, is_short, IsWithin, short_asked, source_given, source_of, text_in, texts_asked, word};
ghost use Rattle.clap.specs.Words.{first_of, found_of, rows_of};

use crate::command::matched;
use crate::limits::{
    LONGEST_NAME, MOST_NUMBER, MOST_PAGES, MOST_WORKERS, USUAL_PAGES, USUAL_WORKERS,
};
use crate::requests::{Plan, PlanSource, Refusal, Words};
use clap::ArgMatches;
use std::alloc::Global;

/// The number that digits go on with from `start`.
fn digits_from(start: u64, digits: &[u8]) -> Option<u64>
    requires { (start + 1) * 10 ^ length digits.now ≤ 10 ^ 10 }
    ensures { result ≡ digits_after start digits.now }
{
    let [first, rest @ ..] = digits else {
        return Some(start);
    };
    if 48 <= *first && *first <= 57 {
        digits_from(start * 10 + (*first - 48) as u64, rest)
    } else {
        None
    }
}

/// The number of one to ten digits, where it lies from `low` to `high`.
fn number(low: u32, high: u32, text: &str) -> Option<u32>
    ensures value { result ≡ number_in low high text.now }
    ensures within { IfSome result (λ n. (low ≤ n) × (n ≤ high)) }
{
    let digits = text.as_bytes();
    if digits.is_empty() || 10 < digits.len() {
        return None;
    }
    let value = digits_from(0, digits)?;
    if low as u64 <= value && value <= high as u64 {
        Some(value as u32)
    } else {
        None
    }
}

/// The number of a text, or another where there is none.
fn number_given(default: u32, high: u32, text: Option<&str>) -> Option<u32>
    ensures { result ≡ number_or default high (option_map (λ s. s.now) text.entry) }
{
    match text {
        None => Some(default),
        Some(text) => number(0, high, text),
    }
}

/// A copy of a text.
fn owned(alloc: Global, text: &str) -> Result<String, Refusal>
    ensures { Answers (Some text.now) string_bytes result }
{
    String::from_str(alloc, text).map_err(|_| Refusal::Memory)
}

/// The four texts, which go together.
fn texts(
    alloc: Global,
    modules: Option<&str>,
    bindings: Option<&str>,
    charmaps: Option<&str>,
    jobs: Option<&str>,
) -> Result<PlanSource, Refusal>
    ensures value { Answers (texts_asked (text_in modules.entry) (text_in bindings.entry)
        (text_in charmaps.entry) (text_in jobs.entry)) source_of result }
    ensures within { IfOk result (λ source. IsWithin (source_of source)) }
{
    let Some(modules) = modules else {
        return Err(Refusal::Usage);
    };
    let Some(bindings) = bindings else {
        return Err(Refusal::Usage);
    };
    let Some(charmaps) = charmaps else {
        return Err(Refusal::Usage);
    };
    let Some(jobs) = jobs else {
        return Err(Refusal::Usage);
    };
    Ok(PlanSource::Texts {
        modules: owned(alloc, modules)?,
        bindings: owned(alloc, bindings)?,
        charmaps: owned(alloc, charmaps)?,
        jobs: owned(alloc, jobs)?,
    })
}

/// The value of an option.
fn given<'a>(matches: &ArgMatches<'a>, name: &str) -> Option<&'a str>
    ensures { text_in result ≡ first_of name.now (rows_of (found_of matches.now)) }
{
    matches.get_str(name)
}

/// A made input, which stands alone.
fn generated(has_others: bool, text: &str) -> Result<PlanSource, Refusal>
    ensures value { Answers (generated_asked has_others text.now) source_of result }
    ensures within { IfOk result (λ source. IsWithin (source_of source)) }
{
    if has_others {
        return Err(Refusal::Usage);
    }
    match number(1, MOST_NUMBER, text) {
        Some(number) => Ok(PlanSource::Generated { number }),
        None => Err(Refusal::Usage),
    }
}

/// Where the jobs of a long form come from.
fn source(alloc: Global, matches: &ArgMatches) -> Result<PlanSource, Refusal>
    ensures value { Answers (source_given (rows_of (found_of matches.now))) source_of result }
    ensures within { IfOk result (λ source. IsWithin (source_of source)) }
{
    let modules = given(matches, "modules");
    let bindings = given(matches, "bindings");
    let charmaps = given(matches, "charmaps");
    let jobs = given(matches, "jobs");
    match given(matches, "generate") {
        None => texts(alloc, modules, bindings, charmaps, jobs),
        Some(text) => generated(
            modules.is_some()
                || bindings.is_some()
                || charmaps.is_some()
                || jobs.is_some()
                || given(matches, "journal").is_some(),
            text,
        ),
    }
}

/// The file of the journal, if one is named.
fn journal(alloc: Global, text: Option<&str>) -> Result<Option<String>, Refusal>
    ensures { Answers (Some (text_in text.entry)) (option_map string_bytes) result }
{
    match text {
        None => Ok(None),
        Some(text) => Ok(Some(owned(alloc, text)?)),
    }
}

/// What the values of a long form ask for.
#[tactic(auto, unfolding(crate::specs::Asked::long_asked))]
fn planned(alloc: Global, matches: &ArgMatches) -> Result<Words, Refusal>
    ensures value { Answers (long_asked (rows_of (found_of matches.now))) request_of result }
    ensures within { IfOk result (λ w. IsWithin (request_of w).source) }
{
    let source = source(alloc, matches)?;
    let Some(pages) = number_given(USUAL_PAGES, MOST_PAGES, given(matches, "pages")) else {
        return Err(Refusal::Usage);
    };
    let Some(workers) = number_given(USUAL_WORKERS, MOST_WORKERS, given(matches, "workers")) else {
        return Err(Refusal::Usage);
    };
    let journal = journal(alloc, given(matches, "journal"))?;
    Ok(Words {
        plan: Plan {
            source,
            pages,
            journal,
        },
        workers,
    })
}

/// What words in the long form ask for.
#[tactic(auto, unfolding(crate::specs::Asked::long_form))]
fn long(alloc: Global, words: &[String]) -> Result<Words, Refusal>
    ensures value { Answers (long_form (map string_bytes words.now)) request_of result }
    ensures within { IfOk result (λ w. IsWithin (request_of w).source) }
{
    match matched(alloc, words) {
        Ok(matches) => planned(alloc, &matches),
        Err(refusal) => Err(refusal),
    }
}

/// The text of a word.
fn word_at(words: &[String], at: usize) -> &str
    requires { at < length words.now }
    ensures { result.now ≡ word (map string_bytes words.now) at }
{
    words[at].as_str()
}

/// What words in the short form ask for.
#[tactic(auto, unfolding(crate::specs::Asked::short_asked))]
fn short(alloc: Global, words: &[String]) -> Result<Words, Refusal>
    requires { length words.now ≡ 6 }
    ensures value { Answers (short_asked (map string_bytes words.now)) request_of result }
    ensures within { IfOk result (λ w. IsWithin (request_of w).source) }
{
    let from = word_at(words, 1);
    let to = word_at(words, 3);
    if LONGEST_NAME < from.len() || LONGEST_NAME < to.len() {
        return Err(Refusal::Usage);
    }
    Ok(Words {
        plan: Plan {
            source: PlanSource::Single {
                from: copied(alloc, from)?,
                to: copied(alloc, to)?,
                input: owned(alloc, word_at(words, 4))?,
                output: owned(alloc, word_at(words, 5))?,
            },
            pages: 0,
            journal: None,
        },
        workers: 0,
    })
}

/// The bytes of a text.
fn copied(alloc: Global, text: &str) -> Result<Vec<u8>, Refusal>
    ensures { Answers (Some text.now) (λ v. v.items) result }
{
    Vec::from_slice(alloc, text.as_bytes()).map_err(|_| Refusal::Memory)
}

/// Whether the words are in the short form.
fn is_short_form(words: &[String]) -> bool
    ensures { result ≡ is_short (map string_bytes words.now) }
{
    words.len() == 6 && word_at(words, 0) == "-f" && word_at(words, 2) == "-t"
}

/// What the words of the program, without its own name, ask for. `Usage` comes exactly where they are
/// no command.
#[tactic(auto, unfolding(crate::specs::Asked::asked))]
pub fn words_of(alloc: Global, words: &[String]) -> Result<Words, Refusal>
    ensures value { Answers (asked (map string_bytes words.now)) request_of result }
    ensures within { IfOk result (λ w. IsWithin (request_of w).source) }
{
    if is_short_form(words) {
        short(alloc, words)
    } else {
        long(alloc, words)
    }
}
