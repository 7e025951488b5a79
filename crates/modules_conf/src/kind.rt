//! The kinds of modules.

ghost use Rattle.std.specs.Prelude.{◌≡◌};

use names_alias::Word;

/// What a module reads and writes by: each word names a charmap.
#[derive(PartialEq, Eq, PartialOrd, Ord, Hash, Drop)]
pub enum Kind {
    /// A set whose codes are those of one charmap.
    Table { map: Word },
    /// ISO-2022-JP over a set of one byte and a set of two bytes.
    Iso2022Jp { roman: Word, kanji: Word },
    /// From the codes of the first charmap to those of the second.
    Recode { first: Word, second: Word },
}

impl Kind {
    /// The same kind, without an allocation.
    pub fn copied(&self) -> Kind
        ensures { result ≡ self.now }
    {
        match self {
            Kind::Table { map } => Kind::Table { map: map.copied() },
            Kind::Iso2022Jp { roman, kanji } => Kind::Iso2022Jp {
                roman: roman.copied(),
                kanji: kanji.copied(),
            },
            Kind::Recode { first, second } => Kind::Recode {
                first: first.copied(),
                second: second.copied(),
            },
        }
    }
}
