//! Bindings for the modules of a configuration.

use modules_conf::{Binding, Bindings, EdgeLine, Kind};
use names_alias::internal;
use std::alloc::{AllocError, Global};

/// A kind that suits the ends of a line.
fn kind_for(line: &EdgeLine) -> Kind {
    if line.source == internal() || line.target == internal() {
        Kind::Table {
            map: line.module.copied(),
        }
    } else {
        Kind::Recode {
            first: line.module.copied(),
            second: line.module.copied(),
        }
    }
}

/// A binding for each line, of its module to a kind that suits it.
pub fn bindings_for(alloc: Global, lines: &[EdgeLine]) -> Result<Bindings, AllocError> {
    let mut bindings = Bindings::new(alloc);
    for line in lines {
        bindings.push(Binding {
            line: line.line,
            name: line.module.copied(),
            kind: kind_for(line),
        })?;
    }
    Ok(bindings)
}
