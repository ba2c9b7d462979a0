// A quick look at OFDM symbols: where it finds nothing wrong, nothing is. It reads sizes of levels alone, many at a time, and tells no place.
// What is wrong with a point is a u16, as wide as its levels, 0 where nothing is: a loop gathers it without a branch, and the compiler does eight at once.
ghost use Rattle.std.specs.Prelude.{◌≡◌, true, cond, ℕ, ◌+◌, ◌*◌, ◌%◌, ◌≤◌, ◌<◌, ltb, pos, nat_abs, length, get_or};
ghost use Rattle.points.specs.Sizes.{most_of};
ghost use Rattle.symbols.specs.Grid.{sub_carriers, symbol_points};
ghost use Rattle.symbols.specs.Grids.{first_occupied};
ghost use Rattle.symbols.specs.Faults.{first_stray};
ghost use Rattle.symbols.specs.Quick.{Passed, PassedBy, Zeros, EmptyFrom, Single, Seen, Legal};

use crate::checks::Reads;
use crate::grid::SUB_CARRIERS;
use crate::scheme::{PointBits, Scheme};

// The points on either side of the unavailable sub-carriers in the middle.
const HALF: usize = 105;

// Whether m OFDM symbols have no fault that a look at sizes could overlook.
pub(crate) fn all_pass<R: Reads>(read: R, m: usize, i: &[i16], q: &[i16]) -> bool
    requires { (m ≤ 256) × (sub_carriers * m ≤ length i.now) × (sub_carriers * m ≤ length q.now) }
    ensures { result ≡ true → (first_occupied i.now q.now 0 (sub_carriers * m) ≡ sub_carriers * m) × (first_stray (R.strays read) m i.now q.now ≡ symbol_points * m) }
{
    for k in 0..m {
        let at = SUB_CARRIERS * k;
        let end = at + SUB_CARRIERS;
        if !passes(read, &i[at..end], &q[at..end]) {
            return false;
        }
    }
    true
}

// Whether the unavailable sub-carriers of one OFDM symbol are empty, and the sizes of the levels of its points those of points that are not stray.
fn passes<R: Reads>(read: R, i: &[i16], q: &[i16]) -> bool
    requires { (length i.now ≡ sub_carriers) × (length q.now ≡ sub_carriers) }
    ensures { result ≡ true → Seen (Legal (R.strays read)) i.now q.now }
{
    is_empty(i, q, 0, 1)
        & is_empty(i, q, 106, 151)
        & read.passes(0, &i[151..256], &q[151..256])
        & read.passes(HALF, &i[1..106], &q[1..106])
}

// Whether the sub-carriers from one to before another are empty.
fn is_empty(i: &[i16], q: &[i16], from: usize, end: usize) -> bool
    requires { (from ≤ end) × (end ≤ length i.now) × (end ≤ length q.now) }
    ensures { result ≡ true → EmptyFrom from end i.now q.now }
{
    any(&i[from..end]) | any(&q[from..end]) == 0
}

// 0 only where all levels are 0.
fn any(levels: &[i16]) -> u16
    ensures { result ≡ 0 → Zeros levels.now }
{
    let mut x: u16 = 0;
    for k in 0..levels.len() {
        x |= points::size(levels[k]);
    }
    x
}

// 0 only where none of 105 points is amiss, by the entries of a scheme from the one at `from` on.
pub(crate) fn amiss(scheme: Scheme<'_>, from: usize, i: &[i16], q: &[i16]) -> u16
    requires { (from + 105 ≤ symbol_points) × (length i.now ≡ 105) × (length q.now ≡ 105) }
    ensures { result ≡ 0 → (s : ℕ) → s < 105 → PassedBy scheme.entry.entries.now (from + s) (get_or i.now s (pos 0)) (get_or q.now s (pos 0)) }
{
    let mut x: u16 = 0;
    for s in 0..HALF {
        x = x
            | wrong(
                scheme.bits(from + s),
                points::size(i[s]),
                points::size(q[s]),
            );
    }
    x
}

// 0 only where the sizes of the levels of each point are 0 and 1.
pub(crate) fn beside(i: &[i16], q: &[i16]) -> u16
    requires { length q.now ≡ length i.now }
    ensures { result ≡ 0 → (s : ℕ) → s < length i.now → Single s (get_or i.now s (pos 0)) (get_or q.now s (pos 0)) }
{
    let mut x: u16 = 0;
    for s in 0..i.len() {
        x |= more_or_less(points::size(i[s]), points::size(q[s]));
    }
    x
}

// 0 only where one of two sizes is 1, and the other 0.
fn more_or_less(e: u16, f: u16) -> u16
    ensures { result ≡ 0 → e + f ≡ 1 }
{
    if e == 0 { f ^ 1 } else { (e ^ 1) | f }
}

// 0 only where the sizes of two levels are those of a point of so many bits: its levels are odd where the largest is.
fn wrong(bits: PointBits, e: u16, f: u16) -> u16
    ensures { result ≡ 0 → Passed bits.n e f }
{
    let most = u16::from(most_of(bits));
    over(e, most)
        | over(f, most)
        | (e ^ most) % 2
        | (f ^ most) % 2
        | both(e, f, u16::from(bits.n % 2))
}

// 1 where e is larger than most, else 0.
fn over(e: u16, most: u16) -> u16
    ensures { result ≡ 0 → e ≤ most }
{
    if most < e { 1 } else { 0 }
}

// What holes is, where both sizes are divisible by 3, else 0.
fn both(e: u16, f: u16, holes: u16) -> u16
    ensures { result ≡ 0 → e % 3 ≡ 0 → f % 3 ≡ 0 → holes ≡ 0 }
{
    if e % 3 == 0 {
        if f % 3 == 0 { holes } else { 0 }
    } else {
        0
    }
}

// The largest size of a level of so many bits: by sums and not from a table, so that the compiler does many at a time.
fn most_of(bits: PointBits) -> u8
    ensures { result ≡ most_of bits.n }
{
    let n = bits.n;
    1 + (from(n, 3) + from(n, 4))
        + 2 * (from(n, 5) + from(n, 6))
        + 4 * (from(n, 7) + from(n, 8))
        + 8 * (from(n, 9) + from(n, 10))
}

// 1 from m on, else 0.
fn from(n: u8, m: u8) -> u8
    ensures { (result ≡ cond (ltb n m) 0 1) × (result ≤ 1) }
{
    if n < m { 0 } else { 1 }
}
