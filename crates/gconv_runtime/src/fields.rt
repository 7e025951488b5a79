//! Which fields the types of the runtime have: a field more is a fault here.

use crate::tokens::{Caller, Descriptor, Gconv};
use outside::Library;

/// Names every field of a runtime, a caller and a descriptor: no other source of a table is there
/// than the hall and the pins.
fn name_fields<L: Library>(gconv: &Gconv<L>, caller: &Caller<L>, descriptor: &Descriptor) {
    let Gconv {
        hall: _,
        aliases: _,
    } = gconv;
    let Caller {
        pass: _,
        view: _,
        told: _,
        live: _,
    } = caller;
    let Descriptor {
        number: _,
        runner: _,
        pins: _,
    } = descriptor;
}
