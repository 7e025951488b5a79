//! The words of a table's pages, and the one look-up over them.
ghost use Rattle.std.specs.Prelude.{◌≡◌, ◌≤◌, length, IfSome};
ghost use Rattle.code_pairs.specs.Tables.{code_of};
ghost use Rattle.code_table.specs.Eights.{AreEight, GivesCodes};
ghost use Rattle.code_table.specs.Looks.{look_of};
ghost use Rattle.history_core.specs.Tokens.{words_of, IsPassOf, IsSame};
ghost use Rattle.page_store.specs.Holdings.{table_in, holdings_of, IsPin};

use crate::pin::Pin;
use crate::story::PagedStory;
use code_pairs::Code;
use code_table::{
    Codes, Eight, Look, bytes_in, code_in, codes_in, eight_in, pages_have_words, planes_lead,
};
use history_core::{Hall, Pass};
use trie::Words;

/// The words of the pages in which a pass holds a table.
#[derive(Drop)]
pub struct PageWords<'a, S: PagedStory> {
    pub hall: &'a Hall<S>,
    pub pass: &'a mut Pass<S>,
    pub pages: &'a [u32],
}

impl<'a, S: PagedStory> Words for PageWords<'a, S> {
    ghost use Rattle.std.specs.Prelude.{◌≡◌, refl};
    ghost use Rattle.std.proofs.Common.{◌∙◌};
    ghost use Rattle.code_table.specs.Images.{image};
    ghost use Rattle.page_store.specs.Holdings.{table_in, holdings_of, CanRead};

    ghost words = { λ x. image (table_in (holdings_of S.holds x.hall.now x.pass.now) x.pages.now) };

    ghost ready = { λ x. CanRead S.holds x.hall.now x.pass.now x.pages.now };

    ghost kept = { λ x y. (y.hall ≡ x.hall) × (y.pass.ghost_name ≡ x.pass.ghost_name)
        × (y.pass.now.seat.table_id ≡ x.pass.now.seat.table_id)
        × (y.pass.now.seat.me ≡ x.pass.now.seat.me) × (y.pages ≡ x.pages) };

    ghost kept_none = { λ _. (refl, refl, refl, refl, refl) };

    ghost kept_twice = { λ _ _ _ a b.
        (b.0 ∙ a.0, b.1 ∙ a.1, b.2 ∙ a.2, b.3 ∙ a.3, b.4 ∙ a.4) };

    #[inline(always)]
    fn word(&mut self, page: u32, place: u8) -> u64 {
        pages_have_words();
        let page = self.pages[page as usize];
        let pass = &mut *self.pass;
        self.hall.read(pass, 256 * page + place as u32)
    }
}

/// What bytes stand for in the table of a pin.
#[inline(always)]
pub fn code_through<S: PagedStory>(
    hall: &Hall<S>,
    pass: &mut Pass<S>,
    pin: &Pin,
    bytes: &[u8],
) -> Look
    requires own { IsPassOf hall.now pass.old }
    requires pin { IsPin (holdings_of S.holds hall.now pass.old) (words_of hall.now)
        pin.now.pages.items pin.now.layout }
    ensures value { result
        ≡ look_of (table_in (holdings_of S.holds hall.now pass.old) pin.now.pages.items) bytes.now }
    ensures same { IsSame pass.old pass.new }
{
    let mut words = PageWords {
        hall,
        pass,
        pages: pin.pages.as_slice(),
    };
    code_in(&mut words, pin.layout, bytes)
}

/// The code of a point in the table of a pin.
#[inline(always)]
pub fn bytes_through<S: PagedStory>(
    hall: &Hall<S>,
    pass: &mut Pass<S>,
    pin: &Pin,
    point: u32,
) -> Option<Code>
    requires own { IsPassOf hall.now pass.old }
    requires pin { IsPin (holdings_of S.holds hall.now pass.old) (words_of hall.now)
        pin.now.pages.items pin.now.layout }
    ensures value { result
        ≡ code_of (table_in (holdings_of S.holds hall.now pass.old) pin.now.pages.items) point }
    ensures same { IsSame pass.old pass.new }
{
    planes_lead();
    let mut words = PageWords {
        hall,
        pass,
        pages: pin.pages.as_slice(),
    };
    bytes_in(&mut words, pin.layout, point)
}

/// The points of the eight codes at the front of some bytes, where each is below 10000 hex.
#[inline(always)]
pub fn eight_through<S: PagedStory>(
    hall: &Hall<S>,
    pass: &mut Pass<S>,
    pin: &Pin,
    input: &[u8],
) -> Option<Eight>
    requires own { IsPassOf hall.now pass.old }
    requires pin { IsPin (holdings_of S.holds hall.now pass.old) (words_of hall.now)
        pin.now.pages.items pin.now.layout }
    requires some { 32 ≤ length input.now }
    ensures eight { IfSome result
        (AreEight (table_in (holdings_of S.holds hall.now pass.old) pin.now.pages.items) input.now) }
    ensures same { IsSame pass.old pass.new }
{
    let mut words = PageWords {
        hall,
        pass,
        pages: pin.pages.as_slice(),
    };
    eight_in(&mut words, pin.layout, input)
}

/// The codes of eight points in the table of a pin.
#[inline(always)]
pub fn codes_through<S: PagedStory>(
    hall: &Hall<S>,
    pass: &mut Pass<S>,
    pin: &Pin,
    points: &[u16],
) -> Option<Codes>
    requires own { IsPassOf hall.now pass.old }
    requires pin { IsPin (holdings_of S.holds hall.now pass.old) (words_of hall.now)
        pin.now.pages.items pin.now.layout }
    requires eight { length points.now ≡ 8 }
    ensures codes { GivesCodes
        (table_in (holdings_of S.holds hall.now pass.old) pin.now.pages.items) points.now result }
    ensures same { IsSame pass.old pass.new }
{
    planes_lead();
    let mut words = PageWords {
        hall,
        pass,
        pages: pin.pages.as_slice(),
    };
    codes_in(&mut words, pin.layout, points)
}
