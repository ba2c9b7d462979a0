// A label that was guessed by table is looked at again: it stands if its point is the one that came in.
ghost use Rattle.std.specs.Prelude.{◌≡◌};
ghost use Rattle.points.specs.Lent.{confirmed};

use crate::Point;

// The label guessed for (i, q), whose point is there: none, where that is another point.
pub(crate) fn confirmed(there: Point, guess: u16, i: i16, q: i16) -> Option<u16>
    ensures { result ≡ confirmed there guess i q }
{
    if there == (Point::At { i, q }) {
        Some(guess)
    } else {
        None
    }
}
