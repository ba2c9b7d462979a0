// The nine constellations of Annex B, for 2 to 10 bits per point: from label to point, and from point to label.
// Both are table reads. The forms that end in `_in`, and `label_read`, are lent the tables, and say what they read from any.
ghost use Rattle.std.specs.Prelude.{◌≡◌};
ghost use Rattle.points.specs.Constellations.{point_of, label_of};
ghost use Rattle.points.specs.Lent.{point_in, label_in, read_in, our_cells, our_quadrants};

use crate::quarter::Quarter;
use crate::tables::{CELLS, QUADRANTS};
use crate::{Point, eight, level, look};

// The point of a label of so many bits: nothing, unless they are 2 to 10 and hold the label.
#[tactic(auto, using(crate::proofs::Lending::point_ours))]
pub fn point(bits: u8, label: u16) -> Point
    ensures { result ≡ point_of bits label }
{
    point_in(cell_table(), bits, label)
}

// The label of so many bits of (i, q): none, where the point is stray, which is none of its constellation.
pub fn label(bits: u8, i: i16, q: i16) -> Option<u16>
    ensures { result ≡ label_of bits i q }
{
    label_in(cell_table(), quadrant_table(), bits, i, q)
}

// The label of so many bits that (i, q) is read as, without a look whether the point is of the constellation.
#[inline]
pub fn read(bits: u8, i: i16, q: i16) -> u16
    ensures { result ≡ read_in our_quadrants bits i q }
{
    read_in(quadrant_table(), bits, i, q)
}

// The first table to lend, where it stands.
#[inline]
#[tactic(auto, using(crate::proofs::Ours::cells_ours))]
pub fn cell_table() -> &'static [u64; 64]
    ensures { result.now ≡ our_cells }
{
    &CELLS
}

// The second table to lend, where it stands.
#[inline]
#[tactic(auto, using(crate::proofs::Ours::quadrants_ours))]
pub fn quadrant_table() -> &'static [u64; 128]
    ensures { result.now ≡ our_quadrants }
{
    &QUADRANTS
}

// The first table, by value.
pub fn cells() -> [u64; 64]
    ensures { result ≡ our_cells }
{
    *cell_table()
}

// The second table, by value.
pub fn quadrants() -> [u64; 128]
    ensures { result ≡ our_quadrants }
{
    *quadrant_table()
}

// The point of a label of so many bits, by the table that is lent.
#[tactic(auto, using(crate::proofs::Lending::point_by_eight, crate::proofs::Lending::point_by_quarter, crate::proofs::Lending::too_few, crate::proofs::Lending::too_many))]
pub fn point_in(cells: &[u64; 64], bits: u8, label: u16) -> Point
    ensures { result ≡ point_in cells.now bits label }
{
    match bits {
        3 => eight::point(label),
        2..=10 => Quarter { bits }.point(cells, label),
        _ => Point::Nothing,
    }
}

// The label of so many bits of (i, q), by the tables that are lent: none, where the point is stray.
pub fn label_in(cells: &[u64; 64], quadrants: &[u64; 128], bits: u8, i: i16, q: i16) -> Option<u16>
    ensures { result ≡ label_in cells.now quadrants.now bits i q }
{
    let guess = read_in(quadrants, bits, i, q);
    look::confirmed(point_in(cells, bits, guess), guess, i, q)
}

// The label of so many bits that (i, q) is read as, by the table that is lent, without a look whether the point is of the constellation.
#[inline]
#[tactic(auto, unfolding(crate::specs::Lent::read_in, crate::specs::Lent::guess_in))]
pub fn read_in(quadrants: &[u64; 128], bits: u8, i: i16, q: i16) -> u16
    ensures { result ≡ read_in quadrants.now bits i q }
{
    match bits {
        3 => eight::guess(level::apart(i), level::apart(q)),
        2..=10 => Quarter { bits }.guess(quadrants, level::apart(i), level::apart(q)),
        _ => 0,
    }
}

// The same by a call, for whoever reads few labels.
pub fn label_read(quadrants: &[u64; 128], bits: u8, i: i16, q: i16) -> u16
    ensures { result ≡ read_in quadrants.now bits i q }
{
    read_in(quadrants, bits, i, q)
}
