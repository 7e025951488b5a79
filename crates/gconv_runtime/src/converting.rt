//! Conversions, which take no turn.
ghost use Rattle.std.specs.Prelude.{◌≡◌};
ghost use Rattle.chain_steps.specs.Resets.{IsReset};
ghost use Rattle.chain_steps.specs.Runs.{IsCall};
ghost use Rattle.gconv_runtime.specs.Tokens.{Knows, number, front};
ghost use Rattle.gconv_runtime.specs.Owning.{Owns, tables_of};

use crate::tokens::{Caller, Descriptor, Gconv};
use chain_steps::{Progress, Reset};
use outside::Library;
use page_store::Pinned;

impl Descriptor {
    /// The position of its opening in the history.
    pub fn number(&self) -> u64
        ensures { result ≡ self.now.number }
    {
        self.number
    }
}

impl<L: Library> Gconv<L> {
    /// Converts by the tables of a descriptor. It takes no turn, whoever else does.
    pub fn convert(
        &self,
        caller: &mut Caller<L>,
        descriptor: &mut Descriptor,
        input: &[u8],
        output: &mut [u8],
    ) -> Progress
        requires knows { Knows self.now caller.old }
        requires owns { Owns self.now caller.old descriptor.old }
        ensures call { IsCall (tables_of self.now caller.old descriptor.old) descriptor.old.runner
            descriptor.new.runner input.now output.old output.new result }
        ensures knows { Knows self.now caller.new }
        ensures owns { Owns self.now caller.new descriptor.new }
        ensures same { (number caller.new ≡ number caller.old)
            × (front caller.new ≡ front caller.old)
            × (descriptor.new.number ≡ descriptor.old.number) }
    {
        let mut tables = Pinned {
            hall: &self.hall,
            pass: &mut caller.pass,
            pins: descriptor.pins.as_slice(),
        };
        descriptor.runner.convert(&mut tables, input, output)
    }

    /// Writes the return sequence, and puts the states to the initial ones. It takes no turn.
    pub fn reset(
        &self,
        caller: &mut Caller<L>,
        descriptor: &mut Descriptor,
        output: &mut [u8],
    ) -> Reset
        requires knows { Knows self.now caller.old }
        requires owns { Owns self.now caller.old descriptor.old }
        ensures reset { IsReset descriptor.old.runner descriptor.new.runner
            output.old output.new result }
        ensures knows { Knows self.now caller.new }
        ensures owns { Owns self.now caller.new descriptor.new }
        ensures same { (number caller.new ≡ number caller.old)
            × (front caller.new ≡ front caller.old)
            × (descriptor.new.number ≡ descriptor.old.number) }
    {
        let pins = descriptor.pins.as_slice();
        let mut tables = Pinned {
            hall: &self.hall,
            pass: &mut caller.pass,
            pins,
        };
        descriptor.runner.reset(&mut tables, output)
    }
}
