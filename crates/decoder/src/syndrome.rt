// Syndromes: the values at a, a^2, .., a^2t of a word's remainder. Those at odd powers are found by Horner's rule, eight digits a step; the value of
// the eight is read from a table. Over bits the value at a square is the square of the value, which gives the others.
ghost use Rattle.std.specs.Prelude.{◌*◌, ◌^◌, ◌<◌, ◌≤◌, length};
ghost use Rattle.bits.specs.Words.{digits};
ghost use Rattle.bch.specs.Registers.{contents, tops};
ghost use Rattle.decoder.specs.Syndromes.{Taken, Syndromes};

use crate::digit_values::DIGIT_VALUES;
use bch::register::Register;

// Each sum takes in m coefficients more, the digits of b: one step of Horner's rule, at a^(2 l + 1) for the sum l.
fn take(m: usize, b: usize, sums: &mut [u16])
    requires { (m ≤ 8) × (b < 2 ^ m) × (length sums.old ≤ 16) }
    ensures { Taken (digits m b) sums.old sums.new }
{
    let high = 256 + b / 16 * 16;
    let low = b % 16 * 16;
    for l in 0..sums.len() {
        let up = field::times_power(sums[l], (m * (2 * l + 1)) as u8);
        sums[l] = up ^ DIGIT_VALUES[high + l] ^ DIGIT_VALUES[low + l];
    }
}

// Each sum takes in the r coefficients that stand at the top of the register, the highest power first.
fn take_all(left: Register, r: usize, sums: &mut [u16])
    requires { (r ≤ 192) × (length sums.old ≤ 16) }
    ensures { Taken (tops r (contents left)) sums.old sums.new }
{
    let mut rest = left;
    for _ in 0..r / 8 {
        take(8, rest.top8() as usize, sums);
        rest = rest.up8();
    }
    // The last, fewer than eight.
    let d = r % 8;
    if 0 < d {
        take(d, (rest.top8() >> (8 - d)) as usize, sums);
    }
}

// At each i below 2 t the value at a^(i + 1): for odd exponents as they are, for even ones the square of that at half of it.
pub(crate) fn syndromes(left: Register, r: usize, t: usize) -> [u16; 32]
    requires { (r ≤ 192) × (t ≤ 16) }
    ensures { Syndromes (tops r (contents left)) (t * 2) result }
{
    // At each l below t the value at a^(2 l + 1).
    let mut odd = [0u16; 16];
    take_all(left, r, &mut odd[..t]);
    let mut out = [0u16; 32];
    for l in 0..t {
        out[l * 2] = odd[l];
        out[l * 2 + 1] = field::product(out[l], out[l]);
    }
    out
}
