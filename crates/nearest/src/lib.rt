// The nearest point of a constellation to levels in sixty-fourths (document 02, item 1), for all ten. No table of points is walked.
// It knows no sub-carrier and no frame. Every public function answers whatever comes in.
//
//   axis      one axis: the stretch in which a level lies, and the lines between two
//   square    constellations that are full squares of levels
//   holes     those with holes
//   eight     8QAM, which is one hole and the eight points round it
#![tactic(auto)]

ghost use Rattle.std.specs.Prelude.{◌≡◌};
ghost use Rattle.points.specs.Constellations.{points};
ghost use Rattle.points.specs.Dqpsk.{phases};
ghost use Rattle.nearest.specs.Nearest.{nearest};
ghost use Rattle.nearest.specs.Axes.{is_upright, nearest_in};

mod axis;
mod eight;
mod holes;
mod square;

use axis::Axis;
use points::{Point, constellation};

// The nearest point of so many bits: nothing, unless they are 2 to 10.
pub fn point(bits: u8, i: i16, q: i16) -> Point
    ensures { result ≡ nearest (points bits) i q }
{
    point_in(constellation::quadrant_table(), bits, i, q)
}

// The nearest point of so many bits, by the table that is lent (points' `quadrants`): nothing, unless they are 2 to 10.
pub fn point_in(quadrants: &[u64; 128], bits: u8, i: i16, q: i16) -> Point
    ensures { result ≡ nearest_in quadrants.now bits i q }
{
    let x = axis::raised(i);
    let y = axis::raised(q);
    match bits {
        3 => eight::nearest(x, y),
        2 | 4 | 6 | 8 | 10 => square::nearest(Axis::of_even(bits), x, y),
        5 | 7 | 9 => holes::nearest(quadrants, Axis::of_odd(bits), x, y),
        _ => Point::Nothing,
    }
}

// The nearest point of DQPSK.
pub fn phase_point(i: i16, q: i16) -> Point
    ensures { result ≡ nearest phases i q }
{
    if is_upright(i, q) {
        return Point::At {
            i: 0,
            q: axis::unit(q),
        };
    }
    Point::At {
        i: axis::unit(i),
        q: 0,
    }
}

// Whether that is one of +j and -j.
fn is_upright(i: i16, q: i16) -> bool
    ensures { result ≡ is_upright i q }
{
    let e = points::size(i);
    let f = points::size(q);
    e < f || e == f && axis::opposite(i, q)
}
