//! Tables of modules, from a library.
ghost use Rattle.std.specs.Prelude.{◌≡◌, [], ◌∷◌, ◌<◌, length, All, Err, true, IfOk, IfErr, IfSome, string_bytes};
ghost use Rattle.std.specs.Str.{IsUtf8};
ghost use Rattle.code_pairs.specs.Tables.{IsWellFormed};
ghost use Rattle.modules_conf.specs.Charmaps.{names_charmaps};
ghost use Rattle.text_lines.specs.Limits.{longest_text};
ghost use Rattle.outside.specs.Takes.{Takes};
ghost use Rattle.runtime_histories.specs.Settings.{Source, path_of, charmaps_of};
ghost use Rattle.runtime_histories.specs.Charmaps.{text_of, wanted, IsTableOf, AreText, HasText, each};
ghost use Rattle.charmap_library.specs.Fetching.{Fetches, FetchesModules, Stops};
ghost use Rattle.charmap_library.specs.Refusals.{RefusesOne, IsFailure};
ghost use Rattle.runtime_histories.specs.declared.refusals.TextFault as text_faults;

use crate::texts::{BuildFault, build_table};
use charmap_reader::{MapFault, MapKind};
use code_table::CodeTable;
use module_graph::Graph;
use modules_conf::Kind;
use names_alias::Word;
use outside::{Fetched, Library};
use runtime_histories::{ModuleTables, Refusal, TextFault};
use std::alloc::{AllocError, Global};
use text_lines::LONGEST_TEXT;

/// The path of a charmap: the directory, a slash and the word.
fn path_to(alloc: Global, dir: &str, word: &Word) -> Result<String, AllocError>
    requires { IsUtf8 word.now }
    ensures { IfOk result (λ path. string_bytes path ≡ path_of dir.now word.now) }
{
    let mut path = String::from_str(alloc, dir)?;
    path.push_str("/")?;
    match str::from_utf8(word.as_bytes()) {
        Ok(word) => path.push_str(word)?,
        Err(_) => unreachable!(),
    }
    Ok(path)
}

/// The refusal of a charmap whose text gives no table.
fn refusal_of(fault: BuildFault, module: u32, word: &Word) -> Refusal
    ensures text { (f : text_faults.TextFault) → fault ≡ BuildFault.Text f
        → result ≡ Refusal.BadCharmap «module» word.now f }
    ensures memory { fault ≡ BuildFault.Memory → result ≡ Refusal.Memory }
{
    match fault {
        BuildFault::Text(fault) => Refusal::BadCharmap {
            module,
            charmap: word.copied(),
            fault,
        },
        BuildFault::Memory => Refusal::Memory,
    }
}

/// The table that what was fetched for a charmap gives.
fn table_from(
    alloc: Global,
    fetched: Fetched,
    module: u32,
    word: &Word,
) -> Result<CodeTable, Refusal>
    ensures ok { (s : Source) → IfSome s.texts (λ shelf. Takes (text_of s shelf word.now) longest_text fetched)
        → IfOk result (IsTableOf s word.now) }
    ensures err { (s : Source) → IfSome s.texts (λ shelf. Takes (text_of s shelf word.now) longest_text fetched)
        → IfErr result (RefusesOne s «module» word.now) }
    ensures failed { IfErr result (λ why. IsFailure why → fetched ≡ Fetched.Failed) }
    ensures memory { fetched ≡ Fetched.Memory → result ≡ Err Refusal.Memory }
{
    match fetched {
        Fetched::Bytes(text) => match build_table(alloc, text.as_slice()) {
            Ok(table) => Ok(table),
            Err(fault) => Err(refusal_of(fault, module, word)),
        },
        Fetched::Absent => Err(Refusal::NoCharmap {
            module,
            charmap: word.copied(),
        }),
        Fetched::TooLarge => Err(Refusal::BadCharmap {
            module,
            charmap: word.copied(),
            fault: TextFault::Map(MapFault {
                kind: MapKind::TooLong,
                line: 0,
            }),
        }),
        Fetched::Failed => Err(Refusal::LibraryFault {
            module,
            charmap: word.copied(),
        }),
        Fetched::Memory => Err(Refusal::Memory),
    }
}

/// Fetches a charmap of a module, and builds its table.
fn fetch_one<L: Library>(
    alloc: Global,
    library: &mut L,
    dir: &str,
    module: u32,
    word: &Word,
) -> Result<CodeTable, Refusal>
    requires { IsUtf8 word.now }
    ensures ok { IfOk result (λ table. Fetches dir.now (L.holdings library.old) (L.holdings library.new)
        (each «module» (word.now ∷ [])) (table ∷ [])) }
    ensures err { IfErr result (Stops dir.now (L.holdings library.old) (L.holdings library.new)
        (each «module» (word.now ∷ []))) }
{
    let path = match path_to(alloc, dir, word) {
        Ok(path) => path,
        Err(_) => return Err(Refusal::Memory),
    };
    let fetched = library.fetch(alloc, path.as_str(), LONGEST_TEXT);
    table_from(alloc, fetched, module, word)
}

/// The tables of a module with one charmap.
fn fetch_single<L: Library>(
    alloc: Global,
    library: &mut L,
    dir: &str,
    module: u32,
    word: &Word,
) -> Result<ModuleTables, Refusal>
    requires { IsUtf8 word.now }
    ensures ok { IfOk result (Fetches dir.now (L.holdings library.old) (L.holdings library.new)
        (each «module» (word.now ∷ []))) }
    ensures err { IfErr result (Stops dir.now (L.holdings library.old) (L.holdings library.new)
        (each «module» (word.now ∷ []))) }
{
    let table = match fetch_one(alloc, library, dir, module, word) {
        Ok(table) => table,
        Err(why) => return Err(why),
    };
    let mut list = Vec::new(alloc);
    match list.push(table) {
        Ok(()) => Ok(ModuleTables::new(list)),
        Err(_) => Err(Refusal::Memory),
    }
}

/// Two tables.
fn both(alloc: Global, one: CodeTable, two: CodeTable) -> Result<ModuleTables, Refusal>
    requires one { IsWellFormed one }
    requires two { IsWellFormed two }
    ensures ok { IfOk result (λ ts. ts ≡ one ∷ two ∷ []) }
    ensures err { IfErr result (λ why. why ≡ Refusal.Memory) }
{
    let mut list = Vec::new(alloc);
    if list.push(one).is_err() || list.push(two).is_err() {
        return Err(Refusal::Memory);
    }
    Ok(ModuleTables::new(list))
}

/// The tables of a module with two charmaps, which are both fetched, also where they are equal.
fn fetch_double<L: Library>(
    alloc: Global,
    library: &mut L,
    dir: &str,
    module: u32,
    first: &Word,
    second: &Word,
) -> Result<ModuleTables, Refusal>
    requires first { IsUtf8 first.now }
    requires second { IsUtf8 second.now }
    ensures ok { IfOk result (Fetches dir.now (L.holdings library.old) (L.holdings library.new)
        (each «module» (first.now ∷ second.now ∷ []))) }
    ensures err { IfErr result (Stops dir.now (L.holdings library.old) (L.holdings library.new)
        (each «module» (first.now ∷ second.now ∷ []))) }
{
    let one = match fetch_one(alloc, library, dir, module, first) {
        Ok(table) => table,
        Err(why) => return Err(why),
    };
    let two = match fetch_one(alloc, library, dir, module, second) {
        Ok(table) => table,
        Err(why) => return Err(why),
    };
    both(alloc, one, two)
}

/// The tables of a module of a kind.
fn fetch_module<L: Library>(
    alloc: Global,
    library: &mut L,
    dir: &str,
    module: u32,
    kind: &Kind,
) -> Result<ModuleTables, Refusal>
    requires { AreText kind.now }
    ensures ok { IfOk result (Fetches dir.now (L.holdings library.old) (L.holdings library.new)
        (each «module» (charmaps_of kind.now))) }
    ensures err { IfErr result (Stops dir.now (L.holdings library.old) (L.holdings library.new)
        (each «module» (charmaps_of kind.now))) }
{
    match kind {
        Kind::Table { map } => fetch_single(alloc, library, dir, module, map),
        Kind::Iso2022Jp { roman, kanji } => {
            fetch_double(alloc, library, dir, module, roman, kanji)
        }
        Kind::Recode { first, second } => {
            fetch_double(alloc, library, dir, module, first, second)
        }
    }
}

/// Fetches the charmaps of modules in order, and builds their tables. It stops at the first charmap
/// that has none.
pub fn fetch_missing<L: Library>(
    alloc: Global,
    graph: &Graph,
    library: &mut L,
    dir: &str,
    missing: &[u32],
) -> Result<Vec<ModuleTables>, Refusal>
    requires known { All (λ m. m < length graph.now.kinds) missing.now }
    requires text { HasText graph.now }
    ensures ok { IfOk result (λ all. FetchesModules dir.now graph.now (L.holdings library.old) (L.holdings library.new)
        missing.now all.items) }
    ensures err { IfErr result (Stops dir.now (L.holdings library.old) (L.holdings library.new)
        (wanted graph.now missing.now)) }
{
    let mut all = Vec::new(alloc);
    for module in missing {
        let tables = match fetch_module(alloc, library, dir, *module, graph.kind_of(*module)) {
            Ok(tables) => tables,
            Err(why) => return Err(why),
        };
        if all.push(tables).is_err() {
            return Err(Refusal::Memory);
        }
    }
    Ok(all)
}
