//! One table in the first pages of a hall, as a story.

use code_pairs::Pair;
use code_table::CodeTable;
use history_core::Story;
use page_store::PagedStory;
use std::collections::LinkedList;
use std::snapshot::Snapshot;

/// The entry of a caller that takes the table, and holds it from then on.
#[derive(Clone, Copy, Debug, PartialEq, Eq)]
pub struct Taken;

/// The setting: the pairs of the table. No value of it is made.
pub struct Pairs {
    pub pairs: LinkedList<Pair>,
}

/// The value: whether the table was ever filled into its pages.
#[derive(Drop)]
pub struct Shelf {
    pub table: Snapshot<CodeTable>,
    pub filled: bool,
}

/// Each number that took the table has it pinned, and 0 has where any number did.
pub struct OneTable;

impl Story for OneTable {
    ghost use Rattle.two_threads.specs.Shelves.{IsGood, has_taken, pinned, IsShelfOf};
    ghost use Rattle.two_threads.specs.ShelfLaws.{pinned_stays};

    type Value = Shelf;

    type Entry = Taken;

    type Setting = Pairs;

    ghost setting = { λ shelf. record { pairs = shelf.table.value } };

    ghost legal = { λ t _. IsGood t.pairs };

    ghost stands = { IsShelfOf };

    ghost pinned = { λ t log n place. pinned t.pairs log n place };

    ghost stays = { λ t front rest n place some _ others.
        pinned_stays t.pairs front rest n place some others };
}

impl PagedStory for OneTable {
    ghost use Rattle.two_threads.specs.Shelves.{held};
    ghost use Rattle.two_threads.specs.ShelfLaws.{held_is, held_pinned};

    ghost holds = { λ t log n. held t.pairs log n };

    ghost are_holdings = { λ t log n h good there. held_is t.pairs log n h good there };

    ghost are_pinned = { λ t log n h _ there. held_pinned t.pairs log n h there };
}
