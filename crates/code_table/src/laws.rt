//! What holds of look-ups in every well formed table and of every two of them, and of page images.

ghost use Rattle.std.specs.Prelude.{◌≡◌, ◌*◌, ◌<◌, ◌^◌, ℕ, List, length, true, Some, None};
ghost use Rattle.code_pairs.specs.Tables.{Table, IsWellFormed, code_of};
ghost use Rattle.code_table.specs.Ascii.{is_ascii, IsAscii};
ghost use Rattle.code_table.specs.Double.{is_double, all_double};
ghost use Rattle.code_table.specs.HandsBack.{HandsBack};
ghost use Rattle.code_table.specs.Images.{root_of, plane_of, page_count, image, IsPlane};
ghost use Rattle.code_table.specs.Last.{last_point};
ghost use Rattle.code_table.specs.Looks.{look_of, IsLook};

use crate::lookup::Lookup;
use crate::table::CodeTable;

/// What a look-up answers is what it says of the bytes.
#[inline(always)]
pub fn looks_tell()
    ensures { (table : Table) (bytes : List ℕ) → IsWellFormed table
        → IsLook table bytes (look_of table bytes) }
{}

/// Two calls, one after the other, hand back what one would.
#[inline(always)]
pub fn hand_back_twice<T: Lookup>()
    ensures { (x y z : T) → HandsBack T.tables T.ready T.kept x y →
        HandsBack T.tables T.ready T.kept y z → HandsBack T.tables T.ready T.kept x z }
{}

/// What the parts of a layout tell of look-ups: no point above the greatest one has a code, the codes of
/// a table of double codes are double, and in a table whose lower half is ASCII each of its bytes stands
/// for its own number, and is the code of it.
#[inline(always)]
pub fn hints_tell()
    ensures last { (table : Table) (point : ℕ) → last_point table < point → code_of table point ≡ None }
    ensures double { (table : Table) (point : ℕ) (code : List ℕ) → all_double table ≡ true →
        code_of table point ≡ Some code → is_double code ≡ true }
    ensures ascii { (table : Table) → is_ascii table ≡ true → IsAscii table }
{}

/// The page of the first plane is the one to which the first word of a page image's root refers.
#[inline(always)]
pub fn planes_lead()
    ensures { (table : Table) → IsPlane (root_of table) (plane_of table) (image table) }
{}

/// A page image has 256 words a page.
#[inline(always)]
pub fn pages_have_words()
    ensures { (table : Table) → length (image table) ≡ 256 * page_count table }
{}

/// A page image has decode pages and others behind them, fewer than 2^32 in all.
pub fn pages_are_counted(table: &CodeTable)
    ensures decode { 0 < root_of table.now }
    ensures behind { root_of table.now < page_count table.now }
    ensures few { page_count table.now < 2 ^ 32 }
{
    let _pages = table.pages();
}
