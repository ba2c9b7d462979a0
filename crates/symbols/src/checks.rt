// The checks 7 and 8 of OFDM symbols, whichever way their points are read.
ghost use Rattle.std.specs.Prelude.{◌≡◌, ℕ, Bool, true, false, ℤ, pos, ◌+◌, ◌*◌, ◌≤◌, ◌<◌, length, get_or};
ghost use Rattle.symbols.specs.Grid.{sub_carriers, symbol_points};
ghost use Rattle.symbols.specs.Faults.{roomy, first_stray, fault_by};

use crate::grid::{POINTS, SUB_CARRIERS};
use crate::{Fault, grid, quick};

// A way to read the points of an OFDM symbol.
pub(crate) trait Reads: Copy {
    ghost strays: { Self → ℕ → ℤ → ℤ → Bool };

    // Whether (i, q) is none of the constellation of the point s, of 210.
    fn is_stray(self, s: usize, i: i16, q: i16) -> bool
        requires { s < symbol_points }
        ensures { result ≡ strays self s i q };

    // Whether a look at sizes alone finds that none of 105 points, from the point `from` on, is stray.
    fn passes(self, from: usize, i: &[i16], q: &[i16]) -> bool
        requires { (from + 105 ≤ symbol_points) × (length i.now ≡ 105) × (length q.now ≡ 105) }
        ensures { result ≡ true → (s : ℕ) → s < 105 → strays self (from + s) (get_or i.now s (pos 0)) (get_or q.now s (pos 0)) ≡ false };
}

// The checks 7 and 8 of m OFDM symbols. Where they are more than 256, or the lists are too short for them, nothing is looked at.
pub(crate) fn first_fault<R: Reads>(read: R, m: usize, i: &[i16], q: &[i16]) -> Result<(), Fault>
    ensures { result ≡ fault_by (R.strays read) m i.now q.now }
{
    if !is_roomy(m, i, q) {
        return Ok(());
    }
    if quick::all_pass(read, m, i, q) {
        return Ok(());
    }
    let occupied = grid::first_occupied(i, q, SUB_CARRIERS * m);
    if occupied < SUB_CARRIERS * m {
        return Err(Fault::Occupied(occupied));
    }
    let stray = first_stray(read, m, i, q);
    if stray < POINTS * m {
        return Err(Fault::StrayPoint(grid::index(stray as u16)));
    }
    Ok(())
}

// Whether m OFDM symbols can be looked at in these lists: at most 256.
fn is_roomy(m: usize, i: &[i16], q: &[i16]) -> bool
    ensures { result ≡ roomy m i.now q.now }
{
    m <= 256 && grid::room(SUB_CARRIERS * m, i, q)
}

// The place, in s order over m OFDM symbols, of the first stray point; 210 m where there is none, as the definition counts (`first_in`, ground).
fn first_stray<R: Reads>(read: R, m: usize, i: &[i16], q: &[i16]) -> usize
    requires { (m ≤ 256) × (sub_carriers * m ≤ length i.now) × (sub_carriers * m ≤ length q.now) }
    ensures { result ≡ first_stray (R.strays read) m i.now q.now }
{
    for place in 0..POINTS * m {
        let k = grid::index(place as u16);
        if read.is_stray(place % POINTS, i[k], q[k]) {
            return place;
        }
    }
    POINTS * m
}
