//! A stream that is converted piece by piece.

ghost use Rattle.std.specs.Prelude.{◌≡◌, ◌+◌, ◌*◌, ◌≤◌, ◌++◌, List, ℕ, [], length, true, IfOk, OnOk, OnErr};
ghost use Rattle.std.specs.declared.result.Result.TheVariants.{Ok};
ghost use Rattle.code_pairs.specs.Tables.{Tables};
ghost use Rattle.code_table.specs.HandsBack.{HandsBack};
ghost use Rattle.unit_relations.specs.Meaning.{MeansWhole};
ghost use Rattle.chain_steps.specs.declared.recipe.Recipe.{Recipe};
ghost use Rattle.chain_steps.specs.Chains.{chain, initial};
ghost use Rattle.chain_steps.specs.Sets.{return_of};
ghost use Rattle.step_buffers.specs.Limits.{longest_piece, longest_stream, most_each};
ghost use Rattle.step_buffers.specs.Held.{IsLittle, nothing_held, answer_from, answer_of};
ghost use Rattle.step_buffers.specs.Stands.{StandsFor};
ghost use Rattle.step_buffers.specs.Ends.{ending, left_by};
ghost use Rattle.step_buffers.specs.declared.answers.Fed.TheVariants.{Stopped};

use crate::answers::{Fed, Finish, Whole};
use crate::feeding::{close, is_stop, take_in};
use crate::laws::stop_stays;
use crate::limits::{ROOM, SCRATCH, TAIL_ROOM};
use crate::parts::{Buffers, Parts};
use chain_steps::{Converter, meaning_goes_on, runs_join};
use std::alloc::{AllocError, Global};
use std::marker::Model;

/// A stream that is converted piece by piece: what was written, and what waits for the next piece.
///
/// The converter isn't kept: each call takes it, in the states in which this session's last call
/// left it. A clause sees the record of what is held.
#[derive(Drop)]
pub struct Session {
    parts: Parts,
    offset: u64,
    taken: u64,
    stopped: bool,
}

impl Model for Session {
    ghost use Rattle.step_buffers.specs.Held.{Held};
    ghost use Rattle.step_buffers.specs.Sound.{IsSound};

    ghost Value = { Held };

    ghost view = { λ s. record {
      output = s.parts.output.items;
      tail = s.parts.tail.items;
      offset = s.offset;
      taken = s.taken;
      stopped = s.stopped;
    } };

    ghost invariant = { IsSound };
}

impl Session {
    /// A session that has read nothing and has no output.
    pub fn new(alloc: Global) -> Result<Session, AllocError>
        ensures nothing { IfOk result (λ s. s ≡ nothing_held) }
        ensures stands { IfOk result (λ s. (ts : Tables) (R : Recipe) →
            StandsFor ts (record { recipe = R; states = initial }) s []) }
    {
        Session::with_room(alloc, 0)
    }

    /// A session that has read nothing, with room for the output of so many bytes of input, so that
    /// the output needn't grow while they are fed. Memory that isn't written isn't touched.
    pub fn with_room(alloc: Global, input: u64) -> Result<Session, AllocError>
        requires { input ≤ longest_stream }
        ensures nothing { IfOk result (λ s. s ≡ nothing_held) }
        ensures stands { IfOk result (λ s. (ts : Tables) (R : Recipe) →
            StandsFor ts (record { recipe = R; states = initial }) s []) }
    {
        let buffers = Buffers {
            output: Vec::new(alloc),
            scratch: Vec::new(alloc),
        };
        Session::over(alloc, buffers, input)
    }

    /// The same in memory that another session has given back. What the buffers hold is dropped,
    /// and they grow where they must.
    pub fn over(alloc: Global, buffers: Buffers, input: u64) -> Result<Session, AllocError>
        requires { input ≤ longest_stream }
        ensures nothing { IfOk result (λ s. s ≡ nothing_held) }
        ensures stands { IfOk result (λ s. (ts : Tables) (R : Recipe) →
            StandsFor ts (record { recipe = R; states = initial }) s []) }
    {
        runs_join();
        let Buffers {
            mut output,
            mut scratch,
        } = buffers;
        output.clear();
        output.reserve(ROOM * input as usize + ROOM)?;
        let long = scratch_for(input);
        if scratch.len() < long {
            scratch.resize(long, 0)?;
        }
        let tail = Vec::with_capacity(alloc, TAIL_ROOM)?;
        Ok(Session {
            parts: Parts {
                output,
                tail,
                scratch,
            },
            offset: 0,
            taken: 0,
            stopped: false,
        })
    }

    /// Takes the next piece of the stream. All memory is taken first.
    ///
    /// A session that has stopped answers the same as before, and nothing changes.
    pub fn feed<C: Converter>(&mut self, converter: &mut C, piece: &[u8]) -> Result<Fed, AllocError>
        requires ready { C.ready converter.old }
        requires piece { length piece.now ≤ longest_piece }
        requires stream { self.old.taken + length piece.now ≤ longest_stream }
        ensures stands { (x : List ℕ) →
            StandsFor (C.tables converter.old) (C.machine converter.old) self.old x →
            OnOk result (StandsFor (C.tables converter.new) (C.machine converter.new) self.new
            (x ++ piece.now)) }
        ensures answer { IfOk result (λ fed. fed ≡ answer_of self.new) }
        ensures stopped { self.old.stopped ≡ true → (result ≡ Ok (Stopped self.old.offset))
            × (self.new ≡ self.old) × (converter.new ≡ converter.old) }
        ensures err { OnErr result ((self.new ≡ self.old) × (converter.new ≡ converter.old)) }
        ensures little { IsLittle self.new }
        ensures taken { self.new.taken ≤ self.old.taken + length piece.now }
        ensures recipe { (C.machine converter.new).recipe ≡ (C.machine converter.old).recipe }
        ensures back { HandsBack C.tables C.ready C.kept converter.old converter.new }
    {
        stop_stays();
        meaning_goes_on();
        if self.stopped {
            return Ok(Fed::Stopped {
                offset: self.offset,
            });
        }
        let room = ROOM * (self.parts.tail.len() + piece.len()) + ROOM;
        self.parts.output.reserve(room)?;
        let reached = take_in(&mut self.parts, converter, piece);
        self.offset += reached.consumed as u64;
        self.taken += piece.len() as u64;
        self.stopped = is_stop(reached.verdict);
        Ok(answer(self.stopped, self.offset))
    }

    /// The bytes written so far.
    pub fn output(&self) -> &[u8]
        ensures value { result.now ≡ self.now.output }
        ensures little { IsLittle self.now }
    {
        self.parts.output.as_slice()
    }

    /// The conversion of the whole stream. It takes no memory: the room was taken with the pieces.
    ///
    /// Where all of the stream was converted, the return sequence stands at the end, and the
    /// converter is in its initial states.
    pub fn finish<C: Converter>(self, converter: &mut C) -> Whole
        requires ready { C.ready converter.old }
        ensures means { (x : List ℕ) → let ts = C.tables converter.old in
            let m = C.machine converter.old in StandsFor ts m self x →
            MeansWhole (chain ts m.recipe) (return_of m.recipe.writer) initial x
            (ending result.bytes.items result.finish (length x)) }
        ensures little { length result.bytes.items ≤ most_each * self.taken + most_each }
        ensures machine { C.machine converter.new ≡
            left_by result.finish (C.machine converter.old) }
        ensures back { HandsBack C.tables C.ready C.kept converter.old converter.new }
    {
        let (buffers, finish) = self.end(converter);
        let Buffers { output, scratch: _ } = buffers;
        Whole {
            bytes: output,
            finish,
        }
    }

    /// The same, with the memory of the session given back: the output's bytes are the conversion.
    pub fn end<C: Converter>(self, converter: &mut C) -> (Buffers, Finish)
        requires ready { C.ready converter.old }
        ensures means { (x : List ℕ) → let ts = C.tables converter.old in
            let m = C.machine converter.old in StandsFor ts m self x →
            MeansWhole (chain ts m.recipe) (return_of m.recipe.writer) initial x
            (ending result.0.output.items result.1 (length x)) }
        ensures little { length result.0.output.items ≤ most_each * self.taken + most_each }
        ensures machine { C.machine converter.new ≡ left_by result.1 (C.machine converter.old) }
        ensures back { HandsBack C.tables C.ready C.kept converter.old converter.new }
    {
        let Session {
            parts,
            offset,
            taken: _,
            stopped,
        } = self;
        let Parts {
            mut output,
            tail,
            mut scratch,
        } = parts;
        let finish = if stopped {
            Finish::Illegal { offset }
        } else if !tail.is_empty() {
            Finish::Incomplete { offset }
        } else {
            close(converter, scratch.as_mut_slice(), &mut output);
            Finish::Done
        };
        (Buffers { output, scratch }, finish)
    }
}

/// How long a scratch serves a stream of so many bytes; none is said of it by 0.
fn scratch_for(input: u64) -> usize
    ensures { most_each ≤ result }
{
    if input == 0 || input as usize >= SCRATCH / ROOM {
        SCRATCH
    } else {
        ROOM * input as usize
    }
}

/// Whether a stream goes on, and where it has stopped.
fn answer(stopped: bool, offset: u64) -> Fed
    ensures { result ≡ answer_from stopped offset }
{
    if stopped {
        Fed::Stopped { offset }
    } else {
        Fed::Going
    }
}
