// Bits of points put one behind the other into machine words.
ghost use Rattle.std.specs.Prelude.{◌≡◌, ◌++◌, ◌+◌, ◌-◌, ◌/◌, ◌^◌, ◌≤◌, ◌<◌, length, take, drop, replicate};
ghost use Rattle.std.specs.Int.Bits.{bit_or};
ghost use Rattle.bits.specs.Words.{digits};
ghost use Rattle.packed.specs.Packed.{bits_from, padded_to};
ghost use Rattle.symbols.specs.Grid.{sub_carriers, symbol_points};
ghost use Rattle.symbols.specs.Grids.{points_from};
ghost use Rattle.symbols.specs.ByScheme.{read_by_in};

use crate::grid;
use crate::grid::POINTS;
use crate::scheme::Scheme;
use packed::RUN;
use points::constellation;

// The bits that one OFDM symbol's points are read as by a table that is lent, behind the first `count` bits of words, where there are zeros.
pub(crate) fn points_behind(
    quadrants: &[u64; 128],
    scheme: Scheme<'_>,
    i: &[i16],
    q: &[i16],
    begun: [u64; RUN],
    count: usize,
) -> [u64; RUN]
    requires { (sub_carriers ≤ length i.now) × (sub_carriers ≤ length q.now) × (count ≤ 512) × (bits_from 41 0 begun ≡ padded_to 2624 (take count (bits_from 41 0 begun))) }
    ensures { bits_from 41 0 result ≡ padded_to 2624 (take count (bits_from 41 0 begun) ++ read_by_in quadrants.now scheme.entry.entries.now (points_from i.now q.now 1 symbol_points)) }
{
    let mut words = begun;
    let mut top = words[count / 64];
    let mut at = count;
    for s in 0..POINTS {
        let k = grid::carrier_of(s + 1);
        let n = scheme.entries[s];
        let label = high(constellation::read_in(quadrants, n, i[k], q[k]), n);
        words[at / 64] = top | label >> (at % 64);
        top = next(top, at % 64, usize::from(n), label);
        at += usize::from(n);
    }
    words[at / 64] = top;
    words
}

// The n lowest digits of a label, at the high end.
fn high(label: u16, n: u8) -> u64
    requires { (0 < n) × (n ≤ 64) }
    ensures { digits 64 result ≡ digits n label ++ replicate (64 - n) 0 }
{
    u64::from(label) << (64 - n)
}

// The machine word that the next bits go to, once the n highest digits of label are put behind the first `fill` of top.
fn next(top: u64, fill: usize, n: usize, label: u64) -> u64
    requires { (fill < 64) × (n < 64) }
    ensures { (fill + n < 64 → result ≡ bit_or top (label / 2 ^ fill)) × (64 ≤ fill + n → digits 64 result ≡ drop (64 - fill) (digits 64 label) ++ replicate (64 - fill) 0) }
{
    if fill + n < 64 {
        top | label >> fill
    } else {
        label << (64 - fill)
    }
}
