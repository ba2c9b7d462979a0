// GF(512), modulo x^9 + x^4 + 1: sum, product, inverse, powers of a and logarithms. An element is a number below 512, whose binary digits
// are the coefficients; a is 2. Every number may come in: it stands for its nine low digits.
// A product is read from two tables, of logarithms and of powers, where they stand. `log_table` and `power_table` hand them out, and `product_from` reads two
// tables that it is lent, these or others.
#![tactic(auto)]

ghost use Rattle.std.specs.Prelude.{◌≡◌, ◌<◌, ◌≤◌, ◌%◌, get_or};
ghost use Rattle.field.specs.Field.{sum, product, inverse, power};
ghost use Rattle.field.specs.Tables.{log_table, power_table, product_from, IsLogarithm};

mod tables;

use tables::{LOGARITHMS, POWERS};

// x + y.
pub fn sum(x: u16, y: u16) -> u16
    ensures { result ≡ sum x y }
{
    (x % 512) ^ (y % 512)
}

// x y.
pub fn product(x: u16, y: u16) -> u16
    ensures { result ≡ product x y }
{
    power_at(log_at(x) + log_at(y))
}

// 1 / x; 0 for x = 0.
pub fn inverse(x: u16) -> u16
    ensures { result ≡ inverse x }
{
    match logarithm(x) {
        Some(i) => power_at(511 - i),
        None => 0,
    }
}

// a^i.
pub fn power(i: u64) -> u16
    ensures { result ≡ power i }
{
    power_at((i % 511) as usize)
}

// The i below 511 with a^i equal to x; 0 has none.
pub fn logarithm(x: u16) -> Option<usize>
    ensures { IsLogarithm x result }
{
    let i = log_at(x);
    if i < 511 { Some(i) } else { None }
}

// x a^e, with one entry of each table. The exponent is small, so that its sum with a logarithm is an entry too.
pub fn times_power(x: u16, e: u8) -> u16
    ensures { result ≡ product x (power e) }
{
    power_at(log_at(x) + usize::from(e))
}

// The table of logarithms, to lend to `product_from`.
pub fn log_table() -> [u16; 512]
    ensures { result ≡ log_table }
{
    LOGARITHMS
}

// The table of powers, to lend to `product_from`: the entries of ours up to the first 0.
pub fn power_table() -> [u16; 1022]
    ensures { result ≡ power_table }
{
    let mut powers = [0; 1022];
    powers.copy_from_slice(&POWERS[..1022]);
    powers
}

// What two lent tables give for x y, whatever they hold: with ours, the product.
pub fn product_from(logs: &[u16; 512], powers: &[u16; 1022], x: u16, y: u16) -> u16
    ensures { result ≡ product_from logs.now powers.now x y }
{
    let i = usize::from(logs[usize::from(x % 512)]);
    let j = usize::from(logs[usize::from(y % 512)]);
    powers[(i + j).min(1021)]
}

// The entry of x in the table of logarithms.
fn log_at(x: u16) -> usize
    ensures { (result ≡ get_or LOGARITHMS (x % 512) 0) × (result ≤ 1021) }
{
    usize::from(LOGARITHMS[usize::from(x % 512)])
}

// The entry i of the table of powers.
fn power_at(i: usize) -> u16
    requires { i < 2043 }
    ensures { result ≡ get_or POWERS i 0 }
{
    POWERS[i]
}
