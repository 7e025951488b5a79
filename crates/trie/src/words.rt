//! Words in pages of 256, wherever they are kept.

/// What stands above a word that is found.
pub const HIT: u64 = 1 << 62;

/// What stands above the number of a page.
pub const REF: u64 = 1 << 61;

/// Words in pages of 256.
pub trait Words {
    ghost use Rattle.std.specs.Prelude.{◌≡◌, ℕ, ◌+◌, ◌*◌, ◌<◌, List, length};
    ghost use Rattle.trie.specs.Words.{word_in};

    /// All words, page after page.
    ghost words: { Self → List ℕ };

    /// What lets a word be read.
    ghost ready: { Self → Type 0 };

    /// What a reading keeps of the value itself, of before and after.
    ghost kept: { Self → Self → Type 0 };

    /// The word at a place of a page.
    fn word(&mut self, page: u32, place: u8) -> u64
        requires ready { ready self.old }
        requires within { 256 * page + place < length (words self.old) }
        ensures value { result ≡ word_in (words self.old) page place }
        ensures same { words self.new ≡ words self.old }
        ensures ready { ready self.new }
        ensures kept { kept self.old self.new };

    // Where no word was read, all is kept.
    ghost kept_none: { (x : Self) → kept x x };

    // What each of two readings keeps, the two together keep.
    ghost kept_twice: { (x y z : Self) → kept x y → kept y z → kept x z };
}

/// Words that lie one after another.
#[derive(Drop)]
pub struct Flat<'a> {
    pub words: &'a [u64],
}

impl<'a> Words for Flat<'a> {
    ghost words = { λ flat. flat.words.now };

    ghost ready = { λ _. Unit {0} };

    ghost kept = { λ _ _. Unit {0} };

    ghost kept_none = { λ _. tt };

    ghost kept_twice = { λ _ _ _ _ _. tt };

    #[inline(always)]
    fn word(&mut self, page: u32, place: u8) -> u64 {
        self.words[page as usize * 256 + place as usize]
    }
}
