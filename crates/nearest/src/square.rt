// Constellations that are full squares of levels: each axis decides alone, on the line between two levels too.
ghost use Rattle.std.specs.Prelude.{◌≡◌, ◌≤◌, ◌<◌, ◌%◌};
ghost use Rattle.nearest.specs.Axes.{lines_of, chosen_of, in_square};

use crate::axis::Axis;
use points::Point;

// The nearest point.
#[tactic(auto, unfolding(crate::specs::Axes::in_square))]
pub(crate) fn nearest(axis: Axis, x: u16, y: u16) -> Point
    requires { axis.bits % 2 ≡ 0 }
    ensures { result ≡ in_square axis.bits x y }
{
    let lines = lines(axis);
    Point::At {
        i: axis.level(chosen(lines, axis, x)),
        q: axis.level(chosen(lines, axis, y)),
    }
}

// Bit j says that the line before stretch j goes to the level before it, whose labels are lower.
#[tactic(auto, unfolding(crate::specs::Axes::lines_of))]
fn lines(axis: Axis) -> u32
    requires { axis.bits % 2 ≡ 0 }
    ensures { result ≡ lines_of axis.bits }
{
    match axis.bits {
        4 => 0x2,
        6 => 0x26,
        8 => 0x2636,
        10 => 0x2636_2736,
        _ => 0,
    }
}

// The stretch to which x is decided.
fn chosen(lines: u32, axis: Axis, x: u16) -> u16
    ensures { (result ≡ chosen_of lines axis.width x) × (result < axis.width) }
{
    let j = axis.stretch(x);
    if (lines >> j) % 2 == 1 {
        return axis.beyond(x, j);
    }
    j
}
