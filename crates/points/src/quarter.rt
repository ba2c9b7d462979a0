// Every constellation but 8QAM, by a quarter of its table: a label's first two bits are the signs of I and Q.
ghost use Rattle.std.specs.Prelude.{◌≡◌, ◌*◌, ◌<◌, ◌≤◌};
ghost use Rattle.points.specs.Lent.{quarter_of, signed, byte_of, byte_in, quarter_point, signs_of, low_in, quarter_guess};

use crate::level::Parts;
use crate::{Point, level};

// Such a constellation, by how many bits a label has.
#[derive(Clone, Copy)]
pub(crate) struct Quarter {
    pub(crate) bits: u8,
    ghost known: { (2 ≤ bits) × (bits ≤ 10) },
}

impl Quarter {
    // How many labels share their first two bits: 2^(bits - 2).
    #[tactic(auto, unfolding(crate::specs::Lent::quarter_of))]
    fn size(self) -> u16
        ensures { (result ≡ quarter_of self.bits) × (result ≤ 256) }
    {
        1u16 << (self.bits - 2)
    }

    // The point of a label, by the table that is lent.
    pub(crate) fn point(self, cells: &[u64; 64], label: u16) -> Point
        ensures { result ≡ quarter_point cells.now (quarter_of self.bits) label }
    {
        let quarter = self.size();
        if 4 * quarter <= label {
            return Point::Nothing;
        }
        signed(label / quarter, cell(cells, quarter + label % quarter))
    }

    // The one label that (i, q) can have, by the table that is lent.
    pub(crate) fn guess(self, quadrants: &[u64; 128], i: Parts, q: Parts) -> u16
        ensures { result ≡ quarter_guess quadrants.now self.bits i q }
    {
        first_two(self.size(), i, q) + low(quadrants, self.bits, i.size / 2, q.size / 2)
    }
}

// The low bits that the quadrant of so many bits has at row x and column y.
fn low(quadrants: &[u64; 128], bits: u8, x: u16, y: u16) -> u16
    ensures { (result ≡ low_in quadrants.now bits x y) × (result < 256) }
{
    let start = low_byte(quadrants, u16::from(bits % 16));
    low_byte(quadrants, 16 * (start + x % 16) + y % 16)
}

// Byte k of the table of cells, going round.
fn cell(cells: &[u64; 64], k: u16) -> u8
    ensures { result ≡ byte_in 512 cells.now k }
{
    let k = (k % 512) as usize;
    byte(cells[k / 8], k)
}

// Byte k of the table of quadrants, going round.
fn low_byte(quadrants: &[u64; 128], k: u16) -> u16
    ensures { (result ≡ byte_in 1024 quadrants.now k) × (result < 256) }
{
    let k = (k % 1024) as usize;
    u16::from(byte(quadrants[k / 8], k))
}

// The point of a cell, with the signs that two bits say.
fn signed(signs: u16, cell: u8) -> Point
    ensures { result ≡ signed signs cell }
{
    Point::At {
        i: level::level(signs / 2, cell / 16),
        q: level::level(signs % 2, cell % 16),
    }
}

// The label whose first two bits are the signs and whose others are 0.
fn first_two(quarter: u16, i: Parts, q: Parts) -> u16
    requires { quarter ≤ 256 }
    ensures { (result ≡ quarter * signs_of i q) × (result ≤ 768) }
{
    quarter * (i.sign % 2 * 2 + q.sign % 2)
}

// Byte k of a word of eight bytes, the first one highest.
fn byte(word: u64, k: usize) -> u8
    ensures { result ≡ byte_of word k }
{
    ((word >> (56 - 8 * (k % 8))) % 256) as u8
}
