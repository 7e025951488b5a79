//! A whole input through one small scratch.

ghost use Rattle.std.specs.Prelude.{◌≡◌, ◌≢◌, ◌+◌, ◌*◌, ◌<◌, ◌≤◌, length, take, drop};
ghost use Rattle.std.specs.Prelude.{vec_len, vec_capacity, IsTrue, ◌↔◌};
ghost use Rattle.unit_relations.specs.declared.verdict.Verdict.TheVariants.{Full, Illegal};
ghost use Rattle.unit_relations.specs.Calls.{Ends};
ghost use Rattle.chain_steps.specs.Chains.{chain};
ghost use Rattle.code_table.specs.HandsBack.{HandsBack};
ghost use Rattle.step_buffers.specs.Limits.{longest_tail, most_each};
ghost use Rattle.step_buffers.specs.Steps.{HasWritten, IsConverted};

use crate::parts::append_within;
use chain_steps::{Converter, Progress, Verdict, runs_are_short, runs_join, units_are_apart};

/// How many bytes of an input were converted, and why no more.
#[derive(Clone, Copy)]
pub struct Reached {
    pub consumed: usize,
    pub verdict: Verdict,
}

fn is_full(verdict: Verdict) -> bool
    ensures { IsTrue result ↔ (verdict ≡ Full) }
{
    verdict == Verdict::Full
}

/// Converts as much of the input as the scratch takes, and puts it behind the output.
fn convert_more<C: Converter>(
    converter: &mut C,
    input: &[u8],
    scratch: &mut [u8],
    output: &mut Vec<u8>,
) -> Progress
    requires ready { C.ready converter.old }
    requires scratch { most_each ≤ length scratch.old }
    requires room { vec_len output.old + most_each * length input.now ≤ vec_capacity output.old }
    ensures written { HasWritten (C.tables converter.old) (C.machine converter.old)
        (C.machine converter.new) (take result.consumed input.now) output.old output.new }
    ensures within { result.consumed ≤ length input.now }
    ensures ends { result.verdict ≢ Full → let m = C.machine converter.old in
        Ends (chain (C.tables converter.old) m.recipe) (C.machine converter.new).states.reading
        (drop result.consumed input.now) result.verdict }
    ensures moved { result.verdict ≡ Full → 0 < result.consumed }
    ensures back { HandsBack C.tables C.ready C.kept converter.old converter.new }
{
    runs_are_short();
    let progress = converter.convert(input, scratch);
    append_within(output, &scratch[..progress.produced]);
    progress
}

/// Converts all of the input that can be, behind the output, whose room was taken before.
///
/// Each call of the converter fills the scratch at most, so that what is written is read again from
/// the cache, and the output's memory is touched only where bytes come to stand.
pub fn convert_through<C: Converter>(
    converter: &mut C,
    input: &[u8],
    scratch: &mut [u8],
    output: &mut Vec<u8>,
) -> Reached
    requires ready { C.ready converter.old }
    requires scratch { most_each ≤ length scratch.old }
    requires room { vec_len output.old + most_each * length input.now ≤ vec_capacity output.old }
    ensures converted { IsConverted (C.tables converter.old) (C.machine converter.old)
        (C.machine converter.new) input.now output.old output.new result }
    ensures short { result.verdict ≢ Illegal →
        length input.now ≤ result.consumed + longest_tail }
    ensures back { HandsBack C.tables C.ready C.kept converter.old converter.new }
{
    runs_join();
    units_are_apart();
    let mut at = 0;
    loop {
        let progress = convert_more(converter, &input[at..], scratch, output);
        at += progress.consumed;
        if !is_full(progress.verdict) {
            return Reached {
                consumed: at,
                verdict: progress.verdict,
            };
        }
    }
}
