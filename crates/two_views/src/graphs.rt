//! Graphs of texts, and names.
ghost use Rattle.std.specs.Prelude.{◌≤◌, length, IfOk};
ghost use Rattle.text_lines.specs.Limits.{longest_text};
ghost use Rattle.modules_conf.specs.Limits.{IsWithinLimits, AreSound};

use module_graph::Graph;
use modules_conf::{Bindings, Conf, read_bindings, read_modules};
use names_alias::{Name, internal, normal};
use std::alloc::{AllocError, Global};
use text_lines::LONGEST_TEXT;

/// The bytes of a text that a reader takes; none where it is too long.
fn short(text: &str) -> &[u8]
    ensures { length result.now ≤ longest_text }
{
    let bytes = text.as_bytes();
    if bytes.len() <= LONGEST_TEXT as usize {
        bytes
    } else {
        b""
    }
}

/// The name of a text, or that of the set between all others.
pub fn name(text: &str) -> Name {
    match normal(short(text)) {
        Ok(name) => name,
        Err(_) => internal(),
    }
}

/// What a text configures: lines that are none of it are passed over.
fn conf_of(alloc: Global, text: &str) -> Result<Conf, AllocError>
    ensures { IfOk result (λ conf. IsWithinLimits conf.edges) }
{
    match read_modules(alloc, short(text)) {
        Ok(conf) => Ok(conf),
        Err(_) => Err(AllocError),
    }
}

/// The lines of a text that bind, without their first word.
fn binding_lines(alloc: Global, text: &str) -> Result<String, AllocError> {
    let mut lines = String::new(alloc);
    for line in text.lines() {
        if let Some(binding) = line.strip_prefix("bind ") {
            lines.push_str(binding)?;
            lines.push_str("\n")?;
        }
    }
    Ok(lines)
}

/// What a text binds.
fn bindings_of(alloc: Global, text: &str) -> Result<Bindings, AllocError>
    ensures { IfOk result AreSound }
{
    let lines = binding_lines(alloc, text)?;
    match read_bindings(alloc, short(lines.as_str())) {
        Ok(bindings) => Ok(bindings),
        Err(_) => Err(AllocError),
    }
}

/// The graph of a configuration and of what a text binds.
fn graph_with(alloc: Global, conf: &Conf, text: &str) -> Result<Graph, AllocError>
    requires { IsWithinLimits conf.now.edges }
{
    match bindings_of(alloc, text) {
        Ok(bindings) => Graph::build(alloc, conf, &bindings),
        Err(fault) => Err(fault),
    }
}

/// The graph of a text.
pub fn graph_of(alloc: Global, text: &str) -> Result<Graph, AllocError> {
    match conf_of(alloc, text) {
        Ok(conf) => graph_with(alloc, &conf, text),
        Err(fault) => Err(fault),
    }
}
