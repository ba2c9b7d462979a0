// Elements of GF(512) by the lane: nine machine words, the planes, hold one element for each of 64 lanes. Digit b of the element of lane l is bit l
// of plane b, so that a sum or a product of 64 pairs is a few operations on machine words. The planes are nine fields and not an array: a step times a,
// of which all is made, treats the planes 0 and 4 apart, so that a loop over an array would be no plainer. Eight rows of planes have a lane for every
// element: lane l of row w is for the element 64 w + l.
#![tactic(auto)]

ghost use Rattle.std.specs.Prelude.{ℕ, ◌%◌, ◌<◌, ◌≡◌};
ghost use Rattle.planes.specs.Lanes.{bit_of, Stepped, PlusWhere, Summed, Multiplied, TimesA, Throughout, OnlyWhere, Vanishing};
ghost use Rattle.planes.specs.Lanes.{DigitTaken, LowsTaken, Begun, Highs, Quadratic};

#[derive(Clone, Copy)]
pub struct Planes {
    pub p0: u64,
    pub p1: u64,
    pub p2: u64,
    pub p3: u64,
    pub p4: u64,
    pub p5: u64,
    pub p6: u64,
    pub p7: u64,
    pub p8: u64,
}

// a v, with x added where y has a lane.
fn next(v: Planes, x: Planes, y: u64) -> Planes
    ensures { Stepped v x y result }
{
    Planes {
        p0: v.p8 ^ (x.p0 & y),
        p1: v.p0 ^ (x.p1 & y),
        p2: v.p1 ^ (x.p2 & y),
        p3: v.p2 ^ (x.p3 & y),
        p4: v.p3 ^ v.p8 ^ (x.p4 & y),
        p5: v.p4 ^ (x.p5 & y),
        p6: v.p5 ^ (x.p6 & y),
        p7: v.p6 ^ (x.p7 & y),
        p8: v.p7 ^ (x.p8 & y),
    }
}

// x where y has a lane, 0 elsewhere. `next`, `only`, `plus` and `sum` stand apart, though one could be made of another: each is a hot step, and has no
// operation that it does not need.
fn only(x: Planes, y: u64) -> Planes
    ensures { OnlyWhere x y result }
{
    Planes {
        p0: x.p0 & y,
        p1: x.p1 & y,
        p2: x.p2 & y,
        p3: x.p3 & y,
        p4: x.p4 & y,
        p5: x.p5 & y,
        p6: x.p6 & y,
        p7: x.p7 & y,
        p8: x.p8 & y,
    }
}

// v, with x added where y has a lane.
fn plus(v: Planes, x: Planes, y: u64) -> Planes
    ensures { PlusWhere v x y result }
{
    Planes {
        p0: v.p0 ^ (x.p0 & y),
        p1: v.p1 ^ (x.p1 & y),
        p2: v.p2 ^ (x.p2 & y),
        p3: v.p3 ^ (x.p3 & y),
        p4: v.p4 ^ (x.p4 & y),
        p5: v.p5 ^ (x.p5 & y),
        p6: v.p6 ^ (x.p6 & y),
        p7: v.p7 ^ (x.p7 & y),
        p8: v.p8 ^ (x.p8 & y),
    }
}

// v + x.
pub fn sum(v: Planes, x: Planes) -> Planes
    ensures { Summed v x result }
{
    Planes {
        p0: v.p0 ^ x.p0,
        p1: v.p1 ^ x.p1,
        p2: v.p2 ^ x.p2,
        p3: v.p3 ^ x.p3,
        p4: v.p4 ^ x.p4,
        p5: v.p5 ^ x.p5,
        p6: v.p6 ^ x.p6,
        p7: v.p7 ^ x.p7,
        p8: v.p8 ^ x.p8,
    }
}

// a v.
fn times_a(v: Planes) -> Planes
    ensures { TimesA v result }
{
    Planes {
        p0: v.p8,
        p1: v.p0,
        p2: v.p1,
        p3: v.p2,
        p4: v.p3 ^ v.p8,
        p5: v.p4,
        p6: v.p5,
        p7: v.p6,
        p8: v.p7,
    }
}

// x y.
pub fn product(x: Planes, y: Planes) -> Planes
    ensures { Multiplied x y result }
{
    let v8 = only(x, y.p8);
    let v7 = next(v8, x, y.p7);
    let v6 = next(v7, x, y.p6);
    let v5 = next(v6, x, y.p5);
    let v4 = next(v5, x, y.p4);
    let v3 = next(v4, x, y.p3);
    let v2 = next(v3, x, y.p2);
    let v1 = next(v2, x, y.p1);
    next(v1, x, y.p0)
}

// The last digit of x in each of the 64 lanes.
fn all(x: u64) -> u64
    ensures { (l : ℕ) → l < 64 → bit_of result l ≡ x % 2 }
{
    x % 2 * 0xffff_ffff_ffff_ffff
}

// x in each lane.
fn spread(x: u16) -> Planes
    ensures { Throughout x result }
{
    let x0 = u64::from(x);
    let x1 = x0 / 2;
    let x2 = x1 / 2;
    let x3 = x2 / 2;
    let x4 = x3 / 2;
    let x5 = x4 / 2;
    let x6 = x5 / 2;
    let x7 = x6 / 2;
    let x8 = x7 / 2;
    Planes {
        p0: all(x0),
        p1: all(x1),
        p2: all(x2),
        p3: all(x3),
        p4: all(x4),
        p5: all(x5),
        p6: all(x6),
        p7: all(x7),
        p8: all(x8),
    }
}

// The lanes that hold 0.
pub fn zeros(v: Planes) -> u64
    ensures { Vanishing v result }
{
    (v.p0 | v.p1 | v.p2 | v.p3 | v.p4 | v.p5 | v.p6 | v.p7 | v.p8) ^ 0xffff_ffff_ffff_ffff
}

// v + d x + e x^2, for what is not known yet of x.
#[derive(Clone, Copy)]
pub struct Trio {
    pub v: Planes,
    pub d: Planes,
    pub e: Planes,
}

// x is y + a times the rest, y being 0 or 1.
fn digit(t: Trio, y: u64) -> Trio
    ensures { DigitTaken t y result }
{
    Trio {
        v: plus(t.v, sum(t.d, t.e), y),
        d: times_a(t.d),
        e: times_a(times_a(t.e)),
    }
}

// The six digits of the lane's number are taken in.
fn lows(t: Trio) -> Trio
    ensures { LowsTaken t result }
{
    let t1 = digit(t, 0xaaaa_aaaa_aaaa_aaaa);
    let t2 = digit(t1, 0xcccc_cccc_cccc_cccc);
    let t3 = digit(t2, 0xf0f0_f0f0_f0f0_f0f0);
    let t4 = digit(t3, 0xff00_ff00_ff00_ff00);
    let t5 = digit(t4, 0xffff_0000_ffff_0000);
    digit(t5, 0xffff_ffff_0000_0000)
}

// c + d x + e x^2.
fn start(c: u16, d: u16, e: u16) -> Trio
    ensures { Begun c d e result }
{
    Trio {
        v: spread(c),
        d: spread(d),
        e: spread(e),
    }
}

// What stands in row 0, and what each of the three digits of a row's number adds.
#[derive(Clone, Copy)]
pub struct Affine {
    pub low: Planes,
    pub six: Planes,
    pub seven: Planes,
    pub eight: Planes,
}

// What the three digits of a row's number add.
fn highs(t: Trio) -> Affine
    ensures { Highs t result }
{
    let d7 = times_a(t.d);
    let e7 = times_a(times_a(t.e));
    let d8 = times_a(d7);
    let e8 = times_a(times_a(e7));
    Affine {
        low: t.v,
        six: sum(t.d, t.e),
        seven: sum(d7, e7),
        eight: sum(d8, e8),
    }
}

// c + d x + e x^2 at each element x.
pub fn quadratic(c: u16, d: u16, e: u16) -> Affine
    ensures { Quadratic c d e result }
{
    highs(lows(start(c, d, e)))
}
