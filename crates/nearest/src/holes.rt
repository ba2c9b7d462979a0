// Constellations whose squares of levels have holes: no point stands in the middle of each three by three stretches. In a hole one of the four points beside it
// is the nearest, and on a line one of those round it: their distances are compared, and then their labels.
ghost use Rattle.std.specs.Prelude.{◌≡◌, ◌+◌, ◌*◌, ◌%◌, ◌≤◌, ◌<◌};
ghost use Rattle.nearest.specs.Axes.{is_hole, candidate_of, lesser, least_of, standing, round_line, beside_hole, in_holed};

use crate::axis::Axis;
use points::{Point, constellation};

// A point that may be the nearest: its key, by which distances come first and then labels, and its levels.
#[derive(Clone, Copy, Debug, PartialEq, Eq)]
pub struct Candidate {
    pub key: u64,
    pub i: i16,
    pub q: i16,
}

// More than any point's key.
const HOLE: u64 = 0x8000_0000_0000_0000;

// What came in, raised, and the axis that both are decided on.
#[derive(Clone, Copy)]
struct Sought {
    axis: Axis,
    x: u16,
    y: u16,
}

impl Sought {
    // The nearest of the four points beside a hole.
    fn beside_hole(self, quadrants: &[u64; 128], j: u16, k: u16) -> Point
        requires { (1 ≤ j) × (1 ≤ k) × (j + 1 < self.axis.width) × (k + 1 < self.axis.width) }
        ensures { result ≡ beside_hole quadrants.now self.axis.bits self.axis.width self.x self.y j k }
    {
        least(
            self.weighed(quadrants, j - 1, k),
            self.weighed(quadrants, j + 1, k),
            self.weighed(quadrants, j, k - 1),
            self.weighed(quadrants, j, k + 1),
        )
    }

    // The nearest of those round a line, or round two.
    fn round_line(self, quadrants: &[u64; 128], j: u16, k: u16, j2: u16, k2: u16) -> Point
        requires { (j < self.axis.width) × (k < self.axis.width) × (j2 < self.axis.width) × (k2 < self.axis.width) }
        ensures { result ≡ round_line quadrants.now self.axis.bits self.axis.width self.x self.y j k j2 k2 }
    {
        least(
            self.weighed(quadrants, j, k),
            self.weighed(quadrants, j2, k),
            self.weighed(quadrants, j, k2),
            self.weighed(quadrants, j2, k2),
        )
    }

    // The point of two stretches, with its key.
    fn weighed(self, quadrants: &[u64; 128], j: u16, k: u16) -> Candidate
        requires { (j < self.axis.width) × (k < self.axis.width) }
        ensures { result ≡ candidate_of quadrants.now self.axis.bits self.axis.width self.x self.y j k }
    {
        let i = self.axis.level(j);
        let q = self.axis.level(k);
        if is_hole(j, k) {
            return Candidate { key: HOLE, i, q };
        }
        let label = u64::from(constellation::read_in(quadrants, self.axis.bits, i, q));
        Candidate {
            key: 1024 * far(self.axis.off(self.x, j), self.axis.off(self.y, k)) + label,
            i,
            q,
        }
    }
}

// The nearest point, by the table that is lent.
pub(crate) fn nearest(quadrants: &[u64; 128], axis: Axis, x: u16, y: u16) -> Point
    requires { axis.bits % 2 ≡ 1 }
    ensures { result ≡ in_holed quadrants.now axis.bits x y }
{
    let sought = Sought { axis, x, y };
    let j = axis.stretch(x);
    let k = axis.stretch(y);
    let j2 = axis.beyond(x, j);
    let k2 = axis.beyond(y, k);
    if j != j2 || k != k2 {
        return sought.round_line(quadrants, j, k, j2, k2);
    }
    if is_hole(j, k) {
        return sought.beside_hole(quadrants, j, k);
    }
    Point::At {
        i: axis.level(j),
        q: axis.level(k),
    }
}

// Whether no point stands there.
fn is_hole(j: u16, k: u16) -> bool
    ensures { result ≡ is_hole j k }
{
    j % 3 == 1 && k % 3 == 1
}

// The sum of two squares.
fn far(a: u64, b: u64) -> u64
    requires { (a < 65536) × (b < 65536) }
    ensures { (result ≡ a * a + b * b) × (result < 8589934592) }
{
    a * a + b * b
}

// The point of the least of four keys.
fn least(a: Candidate, b: Candidate, c: Candidate, d: Candidate) -> Point
    ensures { result ≡ standing (least_of a b c d) }
{
    let best = lesser(lesser(a, b), lesser(c, d));
    Point::At {
        i: best.i,
        q: best.q,
    }
}

// The lesser of two keys: the first, where they are the same.
fn lesser(a: Candidate, b: Candidate) -> Candidate
    ensures { result ≡ lesser a b }
{
    if b.key < a.key { b } else { a }
}
