//! Configurations of texts.

ghost use Rattle.std.specs.Prelude.{IfOk};
ghost use Rattle.modules_conf.specs.Limits.{IsWithinLimits};

use crate::small::{add_bytes, short};
use module_graph::Graph;
use modules_conf::{Conf, Kind, read_bindings, read_modules};
use std::alloc::{AllocError, Global};

/// DIR recodes, TA and TB are tables, and TC is bound to what TA is bound to.
const BINDINGS: &str = "DIR recode CA CB\nTA table CA\nTB table CB\nTC table CA\n";

/// The configuration of a text.
pub fn conf_of(alloc: Global, text: &str) -> Result<Conf, AllocError>
    ensures { IfOk result (λ conf. IsWithinLimits conf.edges) }
{
    match read_modules(alloc, short(text)) {
        Ok(conf) => Ok(conf),
        Err(_) => Err(AllocError),
    }
}

/// The graph of a configuration under these bindings.
fn graph_with(alloc: Global, conf: &Conf) -> Result<Graph, AllocError>
    requires { IsWithinLimits conf.now.edges }
{
    match read_bindings(alloc, short(BINDINGS)) {
        Ok(bindings) => Graph::build(alloc, conf, &bindings),
        Err(_) => Err(AllocError),
    }
}

/// The graph of a text under these bindings.
pub fn graph_of(alloc: Global, text: &str) -> Result<Graph, AllocError> {
    match conf_of(alloc, text) {
        Ok(conf) => graph_with(alloc, &conf),
        Err(fault) => Err(fault),
    }
}

/// Appends a kind of modules, with its charmaps.
pub fn add_kind(answers: &mut String, kind: &Kind) -> Result<(), AllocError> {
    match kind {
        Kind::Table { map } => {
            answers.push_str("table ")?;
            add_bytes(answers, map.as_bytes())
        }
        Kind::Iso2022Jp { roman, kanji } => {
            answers.push_str("iso2022jp ")?;
            add_bytes(answers, roman.as_bytes())?;
            add_bytes(answers, kanji.as_bytes())
        }
        Kind::Recode { first, second } => {
            answers.push_str("recode ")?;
            add_bytes(answers, first.as_bytes())?;
            add_bytes(answers, second.as_bytes())
        }
    }
}
