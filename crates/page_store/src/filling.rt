//! Tables filled into pages.
ghost use Rattle.std.specs.Prelude.{◌≡◌, ◌≢◌, ℕ, ◌+◌, ◌*◌, ◌<◌, length, slice_index, Some};
ghost use Rattle.code_table.specs.Images.{page_count, image_word};
ghost use Rattle.history_core.specs.Rule.{last_fill};
ghost use Rattle.history_core.specs.Tokens.{words_of, number, front, filled, IsTurnOf, IsFree};
ghost use Rattle.page_store.specs.Holdings.{AreApart, AreFilled, IsWithin, side};

use crate::story::PagedStory;
use code_table::CodeTable;
use history_core::Turn;

/// Fills one page of a table's page image into a page.
fn put_page<S: PagedStory>(turn: &mut Turn<'_, S>, table: &CodeTable, page: u32, into: u32)
    requires turn { IsTurnOf turn.old.hall.now turn.old }
    requires page { page < page_count table.now }
    requires inside { IsWithin (words_of turn.old.hall.now) into }
    requires free { (place : ℕ) → place < 256
        → IsFree turn.old.hall.now turn.old.pass.now (256 * into + place) }
    ensures turn { IsTurnOf turn.old.hall.now turn.new }
    ensures same { (turn.new.pass.ghost_name ≡ turn.old.pass.ghost_name)
        × (turn.new.hall ≡ turn.old.hall) × (turn.new.value ≡ turn.old.value) }
    ensures pass { (number turn.new.pass.now ≡ number turn.old.pass.now)
        × (front turn.new.pass.now ≡ front turn.old.pass.now) }
    ensures filled { (place : ℕ) → place < 256
        → last_fill (256 * into + place) (filled turn.new.pass.now)
        ≡ Some (image_word table.now page place) }
    ensures others { (place : ℕ) → ((k : ℕ) → k < 256 → place ≢ 256 * into + k)
        → last_fill place (filled turn.new.pass.now)
        ≡ last_fill place (filled turn.old.pass.now) }
{
    let mut place = 0;
    while place < 256 {
        turn.fill(256 * into + place, table.word(page, place));
        place += 1;
    }
}

/// Fills a table's page image into pages, in their order. It takes no memory.
pub fn put_table<S: PagedStory>(turn: &mut Turn<'_, S>, table: &CodeTable, pages: &[u32])
    requires turn { IsTurnOf turn.old.hall.now turn.old }
    requires count { length pages.now ≡ page_count table.now }
    requires apart { AreApart pages.now }
    requires inside { (k : ℕ) → k < length pages.now
        → IsWithin (words_of turn.old.hall.now) (slice_index pages.now k) }
    requires free { (k place : ℕ) → k < length pages.now → place < 256
        → IsFree turn.old.hall.now turn.old.pass.now (side pages.now k place) }
    ensures turn { IsTurnOf turn.old.hall.now turn.new }
    ensures same { (turn.new.pass.ghost_name ≡ turn.old.pass.ghost_name)
        × (turn.new.hall ≡ turn.old.hall) × (turn.new.value ≡ turn.old.value) }
    ensures pass { (number turn.new.pass.now ≡ number turn.old.pass.now)
        × (front turn.new.pass.now ≡ front turn.old.pass.now) }
    ensures filled { AreFilled table.now pages.now (page_count table.now)
        (filled turn.new.pass.now) }
    ensures others { (place : ℕ)
        → ((k j : ℕ) → k < length pages.now → j < 256 → place ≢ side pages.now k j)
        → last_fill place (filled turn.new.pass.now)
        ≡ last_fill place (filled turn.old.pass.now) }
{
    let count = table.pages();
    let mut page = 0;
    while page < count {
        put_page(turn, table, page, pages[page as usize]);
        page += 1;
    }
}
