//! The bytes of a code.

ghost use Rattle.std.specs.Prelude.{◌≡◌, ◌+◌, ◌<◌, ◌≤◌, ◌^◌, length, slice_index};
ghost use Rattle.std.specs.Cmp.{partial_equiv_from_equiv};
ghost use Rattle.std.specs.Cmp.Lexicographic.{nat_list_eq_equiv};
ghost use Rattle.std.specs.Str.{bytes_eq};
ghost use Rattle.code_pairs.specs.Bytes.{value_of, big_endian, IsCodeForm};

use std::marker::Model;

/// One to four bytes that stand for a point in a table. A clause sees the list of the bytes.
#[derive(Clone, Copy, Debug)]
pub struct Code {
    count: u8,
    value: u32,
}

impl Model for Code {
    ghost use Rattle.std.specs.Prelude.{List, ℕ, ◌^◌, ◌<◌, ◌≤◌};
    ghost use Rattle.code_pairs.specs.Bytes.{big_endian};

    ghost Value = { List ℕ };

    ghost view = { λ c. big_endian c.count c.value };

    ghost invariant = { λ c. (0 < c.count) × (c.count ≤ 4) × (c.value < 256 ^ c.count) };

    ghost use Rattle.std.specs.Prelude.{length};
    ghost use Rattle.code_pairs.specs.Bytes.{value_of};

    ghost inverse = { λ bytes. record { count = length bytes; value = value_of bytes } };

    ghost use Rattle.code_pairs.specs.CodeBack.{code_back};

    ghost inverse_ok = { λ c h. code_back c h };
}

impl PartialEq for Code {
    ghost eq = { bytes_eq };

    ghost laws = { partial_equiv_from_equiv nat_list_eq_equiv };

    fn eq(&self, other: &Code) -> bool {
        self.count == other.count && self.value == other.value
    }
}

impl Eq for Code {
    ghost laws = { nat_list_eq_equiv };
}

impl Code {
    /// The code of `count` bytes that are `value` as one number, the highest byte first.
    pub fn new(count: usize, value: u32) -> Code
        requires some { 0 < count }
        requires few { count ≤ 4 }
        requires fits { value < 256 ^ count }
        ensures { result ≡ big_endian count value }
    {
        Code {
            count: count as u8,
            value,
        }
    }

    /// The code of these bytes.
    pub fn from_bytes(bytes: &[u8]) -> Code
        requires some { 0 < length bytes.now }
        requires few { length bytes.now ≤ 4 }
        ensures { result ≡ bytes.now }
    {
        match bytes {
            [a] => Code {
                count: 1,
                value: *a as u32,
            },
            [a, b] => Code {
                count: 2,
                value: *a as u32 * 256 + *b as u32,
            },
            [a, b, c] => Code {
                count: 3,
                value: *a as u32 * 65536 + *b as u32 * 256 + *c as u32,
            },
            [a, b, c, d] => Code {
                count: 4,
                value: *a as u32 * 16777216 + *b as u32 * 65536 + *c as u32 * 256 + *d as u32,
            },
            _ => unreachable!(),
        }
    }

    /// How many bytes there are, 1 to 4.
    pub fn len(&self) -> usize
        ensures value { result ≡ length self.now }
        ensures form { IsCodeForm self.now }
    {
        self.count as usize
    }

    /// The bytes as one number, the highest byte first.
    pub fn value(&self) -> u32
        ensures value { result ≡ value_of self.now }
        ensures fits { result < 256 ^ length self.now }
    {
        self.value
    }

    /// The byte at a place, counted from 0.
    pub fn byte(&self, place: usize) -> u8
        requires { place < length self.now }
        ensures { result ≡ slice_index self.now place }
    {
        let shift = (self.count as usize - 1 - place) * 8;
        ((self.value >> shift) & 0xff) as u8
    }

    /// The code of as many bytes whose number is greater by `more`.
    pub fn plus(&self, more: u32) -> Code
        requires { value_of self.now + more < 256 ^ length self.now }
        ensures { result ≡ big_endian (length self.now) (value_of self.now + more) }
    {
        Code {
            count: self.count,
            value: self.value + more,
        }
    }
}
