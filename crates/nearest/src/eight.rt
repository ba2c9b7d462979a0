// 8QAM: the eight points round one hole. Squared distances are compared by scores, without a square: 256 times the scores of two levels, and what is the same
// for all points, make the squared distance.
ghost use Rattle.std.specs.Prelude.{◌≡◌, min, ◌+◌, ◌*◌, ◌%◌, ◌<◌};
ghost use Rattle.nearest.specs.Axes.{eight_key, least_key, in_eight};

use points::{Point, constellation};

// The score of level 0.
const MIDDLE: u32 = 65536;

// The nearest point.
#[tactic(auto, unfolding(crate::specs::Axes::in_eight))]
pub(crate) fn nearest(x: u16, y: u16) -> Point
    ensures { result ≡ in_eight x y }
{
    constellation::point(3, (least_key(u32::from(x), u32::from(y)) % 8) as u16)
}

// The least of the keys of the eight, score first and then label.
fn least_key(x: u32, y: u32) -> u32
    requires { (x < 65536) × (y < 65536) }
    ensures { result ≡ least_key x y }
{
    let left = x + 32832;
    let right = 98368 - x;
    let down = y + 32832;
    let up = 98368 - y;
    let upper_right = (8 * (right + up)).min(8 * (right + MIDDLE) + 1);
    let lower_right = (8 * (MIDDLE + down) + 2).min(8 * (right + down) + 3);
    let upper_left = (8 * (MIDDLE + up) + 4).min(8 * (left + up) + 5);
    let lower_left = (8 * (left + down) + 6).min(8 * (left + MIDDLE) + 7);
    upper_right.min(lower_right).min(upper_left.min(lower_left))
}
