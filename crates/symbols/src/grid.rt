// The grid: points on the 256 sub-carriers of an OFDM symbol (equation 4), and where to read them.
ghost use Rattle.std.specs.Prelude.{◌≡◌, ◌%◌, pos, length, get_or, replicate};
ghost use Rattle.symbols.specs.Grid.{sub_carriers, symbol_points, carrier_at, carrier_of};
ghost use Rattle.symbols.specs.Grids.{level_on, levels_from, index_of, occupied, first_occupied, room};

use crate::Carrier;

// The sub-carriers of an OFDM symbol (equation 4).
pub const SUB_CARRIERS: usize = 256;

// The points that they hold.
pub const POINTS: usize = 210;

// What sub-carrier k holds; beyond 255 there is none, and it is empty.
pub fn carrier(k: usize) -> Carrier
    ensures { result ≡ carrier_at k }
{
    match k {
        0 => Carrier::Empty,
        1..=105 => Carrier::Holds(k + 105),
        106..=150 => Carrier::Empty,
        _ => {
            if k <= 255 {
                Carrier::Holds(k - 150)
            } else {
                Carrier::Empty
            }
        }
    }
}

// The sub-carrier that holds s, or 0 where none does: unless s is 1 to 210.
pub fn carrier_of(s: usize) -> usize
    ensures { result ≡ carrier_of s }
{
    match s {
        1..=105 => s + 150,
        106..=210 => s - 105,
        _ => 0,
    }
}

// The level at a place of a list: 0 beyond its end.
fn level_at(levels: &[i16], k: usize) -> i16
    ensures { result ≡ get_or levels.now k (pos 0) }
{
    levels.get(k).copied().unwrap_or(0)
}

// The level that sub-carrier k has of those in s order: 0 where it is empty.
fn level_on(levels: &[i16], k: usize) -> i16
    ensures { result ≡ level_on levels.now (carrier_at k) }
{
    match carrier(k) {
        Carrier::Holds(s) => level_at(levels, s - 1),
        Carrier::Empty => 0,
    }
}

// Puts levels in s order onto the 256 sub-carriers of one OFDM symbol: those that out has places for, and zeros beyond them.
pub fn put_levels(levels: &[i16], out: &mut [i16])
    ensures { out.new ≡ levels_from levels.now 0 (length out.old) }
{
    if out.len() != SUB_CARRIERS || levels.len() != POINTS {
        put_each(levels, out);
        return;
    }
    put_symbol(levels, out);
}

// The same, level after level.
fn put_each(levels: &[i16], out: &mut [i16])
    ensures { out.new ≡ levels_from levels.now 0 (length out.old) }
{
    for k in 0..out.len() {
        out[k] = level_on(levels, k);
    }
}

// The same for 210 levels and 256 places, by parts: each half of the levels stands together, and zeros before it.
fn put_symbol(levels: &[i16], out: &mut [i16])
    requires { (length levels.now ≡ symbol_points) × (length out.old ≡ sub_carriers) }
    ensures { out.new ≡ levels_from levels.now 0 (length out.old) }
{
    clear(&mut out[0..1]);
    copy(&levels[105..210], &mut out[1..106]);
    clear(&mut out[106..151]);
    copy(&levels[0..105], &mut out[151..256]);
}

// Copies levels. A loop, since `copy_from_slice` would ask the C library for memmove, and the archive may ask for memcpy and memset alone.
fn copy(levels: &[i16], out: &mut [i16])
    requires { length levels.now ≡ length out.old }
    ensures { out.new ≡ levels.now }
{
    for k in 0..out.len() {
        out[k] = levels[k];
    }
}

// Makes each level zero.
#[inline]
pub fn clear(out: &mut [i16])
    ensures { out.new ≡ replicate (length out.old) (pos 0) }
{
    out.fill(0);
}

// The grid index of the point at a place of the s order, 210 places to an OFDM symbol.
pub fn index(place: u16) -> usize
    ensures { result ≡ index_of place }
{
    let at = usize::from(place);
    SUB_CARRIERS * (at / POINTS) + carrier_of(at % POINTS + 1)
}

// Whether grid index k is that of an unavailable sub-carrier, and (i, q) other than (0, 0).
fn is_occupied(k: usize, i: i16, q: i16) -> bool
    ensures { result ≡ occupied (carrier_at (k % sub_carriers)) i q }
{
    match carrier(k % SUB_CARRIERS) {
        Carrier::Holds(_) => false,
        Carrier::Empty => (i, q) != (0, 0),
    }
}

// The least of n grid indices at which an unavailable sub-carrier is occupied; n where there is none, as the definition counts. Beyond the lists there is none.
pub fn first_occupied(i: &[i16], q: &[i16], n: usize) -> usize
    ensures { result ≡ first_occupied i.now q.now 0 n }
{
    for k in 0..n {
        if is_occupied(k, level_at(i, k), level_at(q, k)) {
            return k;
        }
    }
    n
}

// Whether both lists have room for so many elements.
pub fn room(n: usize, i: &[i16], q: &[i16]) -> bool
    ensures { result ≡ room n i.now q.now }
{
    n <= i.len() && n <= q.len()
}
