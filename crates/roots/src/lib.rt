// The zeros of a locator among all 512 elements of GF(512), found for all of them at once: Horner's rule in x^3, on planes. Each of its steps multiplies
// by x^3 and adds c + d x + e x^2, which over bits is made of what the digits of x add, one by one.
// Digit b of the elements of row w stands at 8 b + w; lane l of row w stands for the element 64 w + l.
#![tactic(auto)]

ghost use Rattle.std.specs.Prelude.{◌≡◌, suc, ◌*◌, ◌/◌, ◌<◌, min, length, replicate};
ghost use Rattle.roots.specs.Searches.{planes_at, row_put, Grown, times_cube, plus_row, AddedAt, Filled, Advanced, RowsTold, Triple, GoneDown, Searched};

mod tables;

use planes::{Affine, Planes};
use tables::CUBES;

// The planes of row w, one by one, as they are fields: of nine lists of eight the same nine entries would be read.
fn planes_at(s: &[u64; 72], w: usize) -> Planes
    requires { w < 8 }
    ensures { result ≡ planes_at s.now w }
{
    Planes {
        p0: s[w],
        p1: s[8 + w],
        p2: s[16 + w],
        p3: s[24 + w],
        p4: s[32 + w],
        p5: s[40 + w],
        p6: s[48 + w],
        p7: s[56 + w],
        p8: s[64 + w],
    }
}

// Puts v at row w.
fn put(s: &mut [u64; 72], w: usize, v: Planes)
    requires { w < 8 }
    ensures { s.new ≡ row_put s.old w v }
{
    s[w] = v.p0;
    s[8 + w] = v.p1;
    s[16 + w] = v.p2;
    s[24 + w] = v.p3;
    s[32 + w] = v.p4;
    s[40 + w] = v.p5;
    s[48 + w] = v.p6;
    s[56 + w] = v.p7;
    s[64 + w] = v.p8;
}

// The sums times x^3.
fn multiply(sums: &mut [u64; 72])
    ensures { Grown (times_cube sums.old) sums.new }
{
    for w in 0..8 {
        let cubes = planes_at(&CUBES, w);
        put(sums, w, planes::product(planes_at(sums, w), cubes));
    }
}

// Adds v to row w.
fn add_at(sums: &mut [u64; 72], w: usize, v: Planes)
    requires { w < 8 }
    ensures { AddedAt sums.old w v sums.new }
{
    put(sums, w, planes::sum(planes_at(sums, w), v));
}

// Adds t: the rows one after the other, each by one sum.
fn add_rows(sums: &mut [u64; 72], t: Affine)
    ensures { Grown (plus_row sums.old t) sums.new }
{
    let v0 = t.low;
    let v1 = planes::sum(v0, t.six);
    let v2 = planes::sum(v0, t.seven);
    let v3 = planes::sum(v1, t.seven);
    let v4 = planes::sum(v0, t.eight);
    let v5 = planes::sum(v1, t.eight);
    let v6 = planes::sum(v2, t.eight);
    let v7 = planes::sum(v3, t.eight);
    add_at(sums, 0, v0);
    add_at(sums, 1, v1);
    add_at(sums, 2, v2);
    add_at(sums, 3, v3);
    add_at(sums, 4, v4);
    add_at(sums, 5, v5);
    add_at(sums, 6, v6);
    add_at(sums, 7, v7);
}

// The sums, which are all 0, become those of t.
fn fill(sums: &mut [u64; 72], t: Affine)
    requires { sums.old ≡ replicate 72 0 }
    ensures { Filled t sums.new }
{
    add_rows(sums, t);
}

// The sums times x^3, and what t adds.
fn advance(sums: &mut [u64; 72], t: Affine)
    ensures { Advanced t sums.old sums.new }
{
    multiply(sums);
    add_rows(sums, t);
}

// The lanes that are 0.
fn told(sums: &[u64; 72]) -> [u64; 8]
    ensures { RowsTold sums.now result }
{
    let mut z = [0u64; 8];
    for w in 0..8 {
        z[w] = planes::zeros(planes_at(sums, w));
    }
    z
}

// c + d x + e x^2 for the coefficients c, d, e from place 3 i on.
fn triple(locator: &[u16; 34], i: usize) -> Affine
    requires { i < 11 }
    ensures { Triple locator.now i result }
{
    planes::quadratic(locator[3 * i], locator[3 * i + 1], locator[3 * i + 2])
}

// The sums after Horner's rule has gone on from the coefficients at 3 from down to those at 0.
fn go_down(sums: &mut [u64; 72], locator: &[u16; 34], from: usize)
    requires { from < 11 }
    ensures { GoneDown locator.now from sums.old sums.new }
{
    for i in (0..from).rev() {
        advance(sums, triple(locator, i));
    }
}

// Bit l of machine word w tells whether the locator vanishes at the element 64 w + l. Its coefficients up to len count, 33 at most, and one or two
// behind them, which fill the last three up: with 32 as the greatest len the last three are 30, 31 and 32.
pub fn zeros(locator: &[u16; 34], len: usize) -> [u64; 8]
    ensures { Searched locator.now (3 * suc (min len 32 / 3)) result }
{
    let mut sums = [0u64; 72];
    let top = len.min(32) / 3;
    fill(&mut sums, triple(locator, top));
    go_down(&mut sums, locator, top);
    told(&sums)
}
