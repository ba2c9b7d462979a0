// 8QAM, which has none of the others' symmetry, and so its own table: Table B.2.
ghost use Rattle.std.specs.Prelude.{◌≡◌, ◌<◌};
ghost use Rattle.points.specs.Constellations.{point_of};
ghost use Rattle.points.specs.Lent.{side, eight_guess};

use crate::Point;
use crate::level::Parts;

// The labels by rows and columns, which stand for the levels 0, 2 and -2 of I and Q.
const SIDES: [[u16; 3]; 3] = [[0, 4, 2], [1, 0, 3], [7, 5, 6]];

// The point of a label.
#[tactic(auto, unfolding(crate::specs::Constellations::point_of, crate::specs::Constellations::points, crate::specs::Constellations::columns, crate::specs::Constellations::tables))]
pub(crate) fn point(label: u16) -> Point
    ensures { result ≡ point_of 3 label }
{
    match label {
        0 => Point::At { i: 2, q: 2 },
        1 => Point::At { i: 2, q: 0 },
        2 => Point::At { i: 0, q: -2 },
        3 => Point::At { i: 2, q: -2 },
        4 => Point::At { i: 0, q: 2 },
        5 => Point::At { i: -2, q: 2 },
        6 => Point::At { i: -2, q: -2 },
        7 => Point::At { i: -2, q: 0 },
        _ => Point::Nothing,
    }
}

// The one label that (i, q) can have.
pub(crate) fn guess(i: Parts, q: Parts) -> u16
    ensures { result ≡ eight_guess i q }
{
    SIDES[side(i)][side(q)]
}

// 0, 1 or 2 for the levels 0, 2 and -2.
fn side(level: Parts) -> usize
    ensures { (result ≡ side level) × (result < 3) }
{
    ((level.size / 2 % 16 + level.sign % 2 * 2) % 3) as usize
}
