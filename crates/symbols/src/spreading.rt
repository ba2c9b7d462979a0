// Points of bits put onto the sub-carriers of one OFDM symbol.
ghost use Rattle.std.specs.Prelude.{◌≡◌, map, ◌+◌, ◌≤◌, length, take, drop};
ghost use Rattle.bits.specs.Bytes.{as_number};
ghost use Rattle.packed.specs.Packed.{bits_from};
ghost use Rattle.points.specs.Constellations.{level_i, level_q};
ghost use Rattle.symbols.specs.Grid.{sub_carriers};
ghost use Rattle.symbols.specs.Grids.{spread};
ghost use Rattle.symbols.specs.ByScheme.{mapped_by};

use crate::grid;
use crate::grid::POINTS;
use crate::scheme::{PointBits, Scheme};
use packed::RUN;
use points::constellation;

// Puts the points of bits, by a table that is lent, onto the 256 sub-carriers.
pub(crate) fn put_points(
    cells: &[u64; 64],
    scheme: Scheme<'_>,
    bits: &[u64; RUN],
    i: &mut [i16],
    q: &mut [i16],
)
    requires { (length i.old ≡ sub_carriers) × (length q.old ≡ sub_carriers) }
    ensures { (i.new ≡ spread (map level_i (mapped_by cells.now scheme.entry.entries.now (bits_from 41 0 bits.now)))) × (q.new ≡ spread (map level_q (mapped_by cells.now scheme.entry.entries.now (bits_from 41 0 bits.now)))) }
{
    grid::clear(i);
    grid::clear(q);
    let mut at: usize = 0;
    for s in 0..POINTS {
        let k = grid::carrier_of(s + 1);
        let size = scheme.bits(s);
        let point = constellation::point_in(cells, size.n, digits_at(bits, at, size));
        let x = points::level_i(point);
        let y = points::level_q(point);
        i[k] = x;
        q[k] = y;
        at += usize::from(size.n);
    }
}

// The number of so many bits from the place `at` on.
fn digits_at(bits: &[u64; RUN], at: usize, size: PointBits) -> u16
    requires { at + size.n ≤ 2100 }
    ensures { result ≡ as_number (take size.n (drop at (bits_from 41 0 bits.now))) }
{
    let w = at / 64;
    (packed::across(bits[w], packed::word_at(bits, w + 1), at % 64) >> (64 - size.n)) as u16
}
