// The points of HiNoC, ITU-T J.195.2: ten constellations (clause 6.4 and Annex B).
// It knows no code, no sub-carrier and no frame. Every public function answers whatever comes in.
#![tactic(auto)]

ghost use Rattle.std.specs.Prelude.{◌≡◌, nat_abs};
ghost use Rattle.points.specs.Constellations.{level_i, level_q, label_number, is_stray};

pub mod constellation;
pub mod dqpsk;
mod eight;
mod level;
mod look;
mod quarter;
mod tables;

// The point of a label: its levels I and Q, or nothing where there is no such label.
// An `Option` in shape: `Some(Point { i, q })` would be no plainer in the tables of Annex B, nor where a level is read.
#[derive(Clone, Copy, Debug, PartialEq, Eq)]
pub enum Point {
    At { i: i16, q: i16 },
    Nothing,
}

// The level I of a point: 0 where there is none.
pub fn level_i(point: Point) -> i16
    ensures { result ≡ level_i point }
{
    match point {
        Point::At { i, q: _ } => i,
        Point::Nothing => 0,
    }
}

// The level Q of a point: 0 where there is none.
pub fn level_q(point: Point) -> i16
    ensures { result ≡ level_q point }
{
    match point {
        Point::At { i: _, q } => q,
        Point::Nothing => 0,
    }
}

// Whether a label says that the point is stray.
pub fn is_stray(label: Option<u16>) -> bool
    ensures { result ≡ is_stray label }
{
    label.is_none()
}

// The number that a label says: 0 where the point is stray.
pub fn label_number(label: Option<u16>) -> u16
    ensures { result ≡ label_number label }
{
    label.unwrap_or(0)
}

// The size of a level.
pub fn size(level: i16) -> u16
    ensures { result ≡ nat_abs level }
{
    level.unsigned_abs()
}
