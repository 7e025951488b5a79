//! The happy path of each reader, its limits, and each fault of a bindings text.

use crate::names::add_caller_names;
use crate::small::{add_bytes, add_number, check, repeated, short};
use crate::texts::{add_kind, conf_of};
use modules_conf::{
    AliasLine, BindFault, Binding, Conf, ConfFault, EdgeLine, aliases_of, read_bindings,
    read_modules,
};
use std::alloc::{AllocError, Global};

/// Appends a module line.
fn add_edge(answers: &mut String, edge: &EdgeLine) -> Result<(), AllocError> {
    add_number(answers, edge.line as u64)?;
    add_bytes(answers, edge.source.as_bytes())?;
    add_bytes(answers, edge.target.as_bytes())?;
    add_bytes(answers, edge.module.as_bytes())?;
    add_number(answers, edge.cost as u64)?;
    answers.push_str("\n")
}

/// Appends an alias line.
fn add_alias(answers: &mut String, alias: &AliasLine) -> Result<(), AllocError> {
    add_number(answers, alias.line as u64)?;
    add_bytes(answers, alias.alias.as_bytes())?;
    add_bytes(answers, alias.original.as_bytes())?;
    answers.push_str("\n")
}

/// Appends what a configuration says.
fn add_conf(answers: &mut String, conf: &Conf) -> Result<(), AllocError> {
    add_number(answers, conf.passed as u64)?;
    answers.push_str("\n")?;
    for edge in conf.edges.as_slice() {
        add_edge(answers, edge)?;
    }
    for alias in conf.aliases.as_slice() {
        add_alias(answers, alias)?;
    }
    Ok(())
}

/// What a text configures.
fn configured(alloc: Global, text: &str) -> Result<String, AllocError> {
    let mut answers = String::new(alloc);
    let added = match conf_of(alloc, text) {
        Ok(conf) => add_conf(&mut answers, &conf),
        Err(fault) => Err(fault),
    };
    match added {
        Ok(()) => Ok(answers),
        Err(fault) => Err(fault),
    }
}

/// Lines as the GNU C Library ships them, and a few that are passed over.
const SHIPPED: &str = "# GNU libc iconv configuration.\n\
\t\n\
#\tfrom\t\t\tto\t\t\tmodule\t\tcost\n\
alias\tISO-IR-100//\t\tISO-8859-1//\n\
alias\tLATIN1//\t\tISO-8859-1//\r\n\
module\tISO-8859-1//\t\tINTERNAL\t\tISO8859-1\t1\n\
module\tINTERNAL\t\tISO-8859-1//\t\tISO8859-1\t1 # back\n\
module\tISO646-SE2//\t\tINTERNAL\t\tISO646\t\t2\n\
module\tINTERNAL\t\tISO646-SE2//\n\
module\tA\tB\tC\t0\n\
cost 1";

const SHIPPED_LINES: &str = "2 \n\
6 ISO-8859-1// INTERNAL// ISO8859-1 1 \n\
7 INTERNAL// ISO-8859-1// ISO8859-1 1 \n\
8 ISO646-SE2// INTERNAL// ISO646 2 \n\
10 A// B// C 1 \n\
4 ISO-IR-100// ISO-8859-1// \n\
5 LATIN1// ISO-8859-1// \n";

#[test]
fn reads_lines_as_they_are_shipped(rt: HostRuntime) {
    check(&rt, configured(rt.alloc(), SHIPPED), SHIPPED_LINES);
}

/// Appends what names mean by a configuration.
fn add_resolved(alloc: Global, answers: &mut String, conf: &Conf) -> Result<(), AllocError> {
    match aliases_of(alloc, conf) {
        Ok(aliases) => add_caller_names(answers, &aliases, "x s utf8"),
        Err(fault) => Err(fault),
    }
}

fn resolved(alloc: Global, text: &str) -> Result<String, AllocError> {
    let mut answers = String::new(alloc);
    let added = match conf_of(alloc, text) {
        Ok(conf) => add_resolved(alloc, &mut answers, &conf),
        Err(fault) => Err(fault),
    };
    match added {
        Ok(()) => Ok(answers),
        Err(fault) => Err(fault),
    }
}

const ALIASES: &str = "alias X Y\nalias X Z\nalias S Y\nmodule S T M";

#[test]
fn resolves_by_the_lines(rt: HostRuntime) {
    check(&rt, resolved(rt.alloc(), ALIASES), "Y// S// UTF-8// \n");
}

/// The line at which a text of so many equal ones has one too many; 0 where it hasn't.
fn line_too_many(alloc: Global, line: &str, count: usize) -> Result<u32, AllocError> {
    let text = repeated(alloc, line, count)?;
    match read_modules(alloc, short(text.as_str())) {
        Ok(_) => Ok(0),
        Err(ConfFault::TooManyLines { line }) => Ok(line),
        Err(ConfFault::Memory) => Err(AllocError),
    }
}

/// Such lines of some texts.
fn lines_too_many(alloc: Global) -> Result<String, AllocError> {
    let mut answers = String::new(alloc);
    add_number(
        &mut answers,
        line_too_many(alloc, "module A B C\n", 16_384)? as u64,
    )?;
    add_number(
        &mut answers,
        line_too_many(alloc, "module A B C\n", 16_385)? as u64,
    )?;
    add_number(
        &mut answers,
        line_too_many(alloc, "# x\nalias A B\n", 16_386)? as u64,
    )?;
    let both = "alias A B\nmodule A B C\n";
    add_number(&mut answers, line_too_many(alloc, both, 16_385)? as u64)?;
    Ok(answers)
}

#[test]
fn refuses_one_line_too_many(rt: HostRuntime) {
    check(&rt, lines_too_many(rt.alloc()), "0 16385 32770 32769 ");
}

/// Appends why bindings aren't read.
fn add_fault(answers: &mut String, fault: BindFault) -> Result<(), AllocError> {
    write!(answers, "{fault:?} ")
}

/// Appends bindings.
fn add_bindings(answers: &mut String, bindings: &[Binding]) -> Result<(), AllocError> {
    for binding in bindings {
        add_number(answers, binding.line as u64)?;
        add_bytes(answers, binding.name.as_bytes())?;
        add_kind(answers, &binding.kind.copied())?;
        answers.push_str("\n")?;
    }
    Ok(())
}

/// Appends the bindings of a text, or why they aren't read.
fn add_text(alloc: Global, answers: &mut String, text: &str) -> Result<(), AllocError> {
    match read_bindings(alloc, short(text)) {
        Ok(bindings) => add_bindings(answers, bindings.as_slice()),
        Err(fault) => add_fault(answers, fault),
    }
}

/// The bindings of some texts, which bars part.
fn bound(alloc: Global, texts: &str) -> Result<String, AllocError> {
    let mut answers = String::new(alloc);
    for text in texts.split('|') {
        add_text(alloc, &mut answers, text)?;
    }
    Ok(answers)
}

const BINDINGS: &str = "DIR recode CA CB\r\n # x y\n\nTA table C(1)\nTB\tiso2022jp CB CC";

const BOUND: &str = "1 DIR recode CA CB \n4 TA table C(1) \n5 TB iso2022jp CB CC \n";

#[test]
fn reads_bindings(rt: HostRuntime) {
    check(&rt, bound(rt.alloc(), BINDINGS), BOUND);
}

const FAULTY: &str = "X tabel C|X table|X table C D|X recode C|X|X table ../C|\
X table C\nX table C|#\nX table C/D\nX|X table C\nX table D\nX";

const FAULTS: &str = "BadKind { line: 1 } WordCount { line: 1 } WordCount { line: 1 } \
WordCount { line: 1 } WordCount { line: 1 } BadWord { line: 1 } \
Twice { line: 2 } BadWord { line: 2 } Twice { line: 2 } ";

#[test]
fn tells_the_first_fault(rt: HostRuntime) {
    check(&rt, bound(rt.alloc(), FAULTY), FAULTS);
}

/// So many bindings of different names.
fn distinct(alloc: Global, count: usize) -> Result<String, AllocError> {
    let mut text = String::new(alloc);
    for number in 0..count {
        write!(text, "B{number} table C\n")?;
    }
    Ok(text)
}

/// How many of so many bindings are read, or why they aren't.
fn read_distinct(alloc: Global, answers: &mut String, count: usize) -> Result<(), AllocError> {
    let text = distinct(alloc, count)?;
    match read_bindings(alloc, short(text.as_str())) {
        Ok(bindings) => add_number(answers, bindings.as_slice().len() as u64),
        Err(fault) => add_fault(answers, fault),
    }
}

fn most_bindings(alloc: Global) -> Result<String, AllocError> {
    let mut answers = String::new(alloc);
    read_distinct(alloc, &mut answers, 16_384)?;
    read_distinct(alloc, &mut answers, 16_385)?;
    Ok(answers)
}

#[test]
fn refuses_one_binding_too_many(rt: HostRuntime) {
    check(
        &rt,
        most_bindings(rt.alloc()),
        "16384 TooMany { line: 16385 } ",
    );
}
