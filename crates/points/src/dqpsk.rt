// DQPSK, clause 6.4.2: the points of Payload A. A phase is a number of quarter turns from the reference (1, 0).
ghost use Rattle.std.specs.Prelude.{◌≡◌};
ghost use Rattle.points.specs.Dqpsk.{turn, dibit_to, phase_point, phase_of};
ghost use Rattle.points.specs.Lent.{phase_guess, phase_read};

use crate::level::Parts;
use crate::{Point, level, look};

// The quarter turns of the dibits 00, 01, 10 and 11: 0, +1, -1 and +2. The table is its own inverse.
const TURNS: [u8; 4] = [0, 1, 3, 2];

// The points by phase.
static PHASES: [Point; 4] = [
    Point::At { i: 1, q: 0 },
    Point::At { i: 0, q: 1 },
    Point::At { i: -1, q: 0 },
    Point::At { i: 0, q: -1 },
];

// The phase to which a dibit turns the phase before.
#[tactic(auto, unfolding(crate::specs::Dqpsk::turn))]
pub fn turned(phase: u16, dibit: u8) -> u16
    ensures { result ≡ turn phase dibit }
{
    (phase % 4 + u16::from(TURNS[(dibit % 4) as usize])) % 4
}

// The dibit that turns one phase to another.
#[tactic(auto, unfolding(crate::specs::Dqpsk::dibit_to))]
pub fn dibit(phase: u16, to: u16) -> u8
    ensures { result ≡ dibit_to phase to }
{
    TURNS[((to % 4 + 4 - phase % 4) % 4) as usize]
}

// The point of a phase: nothing, unless it is 0 to 3.
#[tactic(auto, unfolding(crate::specs::Dqpsk::phase_point), using(crate::proofs::Ours::phases_ours, std::proofs::lemmas::Option::gets))]
pub fn point(phase: u16) -> Point
    ensures { result ≡ phase_point phase }
{
    match PHASES.get(phase as usize) {
        Some(&point) => point,
        None => Point::Nothing,
    }
}

// The phase of (i, q): none, where the point is stray, none of the four.
pub fn phase(i: i16, q: i16) -> Option<u16>
    ensures { result ≡ phase_of i q }
{
    let guess = read(i, q);
    look::confirmed(point(guess), guess, i, q)
}

// The phase that (i, q) is read as, without a look whether it is that of (i, q).
#[tactic(auto, unfolding(crate::specs::Lent::phase_read))]
pub fn read(i: i16, q: i16) -> u16
    ensures { result ≡ phase_read i q }
{
    guess(level::apart(i), level::apart(q))
}

// The one phase that (i, q) can have.
fn guess(i: Parts, q: Parts) -> u16
    ensures { result ≡ phase_guess i q }
{
    (q.size % 4 + i.sign % 2 * 2 + q.sign % 2 * 3) % 4
}
