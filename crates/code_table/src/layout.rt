//! The parts of a page image.

ghost use Rattle.std.specs.Prelude.{◌≡◌, ◌<◌, ◌*◌, length, unwrap_or};
ghost use Rattle.code_pairs.specs.Tables.{Table};
ghost use Rattle.code_table.specs.Double.{all_double};
ghost use Rattle.code_table.specs.Images.{IsImage, IsImageOf};
ghost use Rattle.code_table.specs.Last.{last_point};
ghost use Rattle.code_table.specs.Layouts.{layout_of};
ghost use Rattle.trie.specs.Words.{page_in, word_in};

use crate::ascii::is_ascii;
use trie::page_in;

/// The parts of a page image, and what is told of all its pairs at once.
#[derive(Clone, Copy, Debug, PartialEq, Eq)]
pub struct Layout {
    /// How many decode pages there are, which is the number of the root page.
    pub root: u32,
    /// The page of the points below 10000 hex; 0 where no pair has one. A look-up of such a point begins
    /// here, and reads one word less.
    pub plane: u32,
    /// How many pages there are.
    pub pages: u32,
    /// The greatest point that a pair has; 0 where there is no pair.
    pub last: u32,
    /// Whether each code is two bytes, each from 21 to 7E hex.
    pub double: bool,
    /// Whether the table's lower half is ASCII.
    pub ascii: bool,
}

/// The page that the first word of a page refers to; 0 where it refers to none.
fn first_page(words: &[u64], page: u32) -> u32
    requires { 256 * page < length words.now }
    ensures { result ≡ unwrap_or (page_in (word_in words.now page 0)) 0 }
{
    match page_in(words[page as usize * 256]) {
        Some(next) => next,
        None => 0,
    }
}

/// The layout of the table whose page image the words are. It reads the words for the page of the
/// first plane and for the lower half.
pub fn layout_in(words: &[u64], root: u32, pages: u32, last: u32, double: bool) -> Layout
    requires image { IsImage root pages words.now }
    ensures { (table : Table) → IsImageOf table root pages words.now → last ≡ last_point table →
        double ≡ all_double table → result ≡ layout_of table }
{
    let bare = Layout {
        root,
        plane: first_page(words, root),
        pages,
        last,
        double,
        ascii: false,
    };
    let ascii = is_ascii(words, bare);
    Layout { ascii, ..bare }
}
