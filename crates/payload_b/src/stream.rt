// The state of a stream: what is kept of a frame of Payload B between one OFDM symbol and the next (document 02, item 5). It is a value that a caller hands in
// and gets back, and any value may come in.
ghost use Rattle.std.specs.Prelude.{◌≡◌, Some, None, MatchOption};
ghost use Rattle.payload_b.specs.StreamB.{with_scheme, moving, Judges};
ghost use Rattle.payload_b.specs.Courses.{told_of, course_of};

use crate::plan;
use crate::plan::Plan;
use answers::{Refusal, Told};
use payload::ahead;
use symbols::grid::POINTS;
use symbols::scheme::Scheme;

// Whether a stream goes on, or was refused; then it repeats that refusal. As an Option of a refusal it would be no plainer: None would have to mean open.
#[derive(Clone, Copy)]
pub enum Course {
    Open,
    Refused(Refusal),
}

// The scheme, the unfinished block, its bits at the front and zeros behind them, and how many they are; mode and frame length; the OFDM symbols taken in, the
// scrambler's register, the bits mended, in all and in the worst block.
#[derive(Clone, Copy)]
pub struct State {
    pub scheme: [u8; POINTS],
    pub block: [u64; 8],
    pub count: usize,
    pub mode: u8,
    pub size: usize,
    pub seen: usize,
    pub register: u16,
    pub mended: usize,
    pub worst: usize,
    pub course: Course,
}

// What of a state moves on from step to step: all but the scheme, which can be lent.
#[derive(Clone, Copy)]
pub struct Moving {
    pub block: [u64; 8],
    pub count: usize,
    pub mode: u8,
    pub size: usize,
    pub seen: usize,
    pub register: u16,
    pub mended: usize,
    pub worst: usize,
    pub course: Course,
}

// A state of a scheme and what moves.
pub fn with_scheme(scheme: [u8; POINTS], m: Moving) -> State
    ensures { result ≡ with_scheme scheme m }
{
    // By a variable, since the borrow checker takes no array straight from one field to another.
    let block = m.block;
    State {
        scheme,
        block,
        count: m.count,
        mode: m.mode,
        size: m.size,
        seen: m.seen,
        register: m.register,
        mended: m.mended,
        worst: m.worst,
        course: m.course,
    }
}

// What moves of a state.
pub fn without_scheme(s: State) -> Moving
    ensures { result ≡ moving s }
{
    // By a variable, as above.
    let block = s.block;
    Moving {
        block,
        count: s.count,
        mode: s.mode,
        size: s.size,
        seen: s.seen,
        register: s.register,
        mended: s.mended,
        worst: s.worst,
        course: s.course,
    }
}

// How far a state is: the plan of its frame, and the blocks that are done.
#[derive(Clone, Copy)]
pub struct Stage {
    pub plan: Plan,
    pub done: usize,
}

// How far a state is, and its scheme as one that was looked at.
#[derive(Clone, Copy)]
pub struct Found<'a> {
    pub stage: Stage,
    pub scheme: Scheme<'a>,
}

// How far a state is, one that is open, of this scheme and what moves, and the scheme as one that was looked at; none where no opening and no steps can give it.
pub fn checked<'a>(scheme: &'a [u8], s: Moving) -> Option<Found<'a>>
    ensures { MatchOption result (Judges (with_scheme scheme.now s) None) (λ found. Judges (with_scheme scheme.now s) (Some found.stage) × (found.scheme.entries.now ≡ scheme.now)) }
{
    let Ok(frame) = plan::checked(s.mode, s.size, scheme) else {
        return None;
    };
    let plan = frame.plan;
    if plan.symbols < s.seen {
        return None;
    }
    let bits = plan.sum * s.seen;
    let size = plan.mode.block_bits();
    let done = (bits / size).min(plan.blocks);
    let count = if done < plan.blocks { bits % size } else { 0 };
    if s.count != count {
        return None;
    }
    if s.register != ahead::register_after(plan.mode.block_bytes() * done) {
        return None;
    }
    if !packed::ends_at(&s.block, count) {
        return None;
    }
    if plan.mode.mends() < s.worst {
        return None;
    }
    if s.mended < s.worst {
        return None;
    }
    if s.worst * done < s.mended {
        return None;
    }
    Some(Found {
        stage: Stage { plan, done },
        scheme: frame.scheme,
    })
}

// How far it is alone: nothing of the scheme is kept.
pub fn judged(scheme: &[u8], s: Moving) -> Option<Stage>
    ensures { Judges (with_scheme scheme.now s) result }
{
    let found = checked(scheme, s)?;
    Some(found.stage)
}

// What a course tells: 0 where it is open.
pub fn told(course: Course) -> Told
    ensures { result ≡ told_of course }
{
    match course {
        Course::Open => Told::from(Ok::<(), Refusal>(())),
        Course::Refused(why) => Told::from(why),
    }
}

// The course that a number and a place tell; of a number that no course has, that of a forged state.
pub fn course_of(number: u64, place: usize) -> Course
    ensures { result ≡ course_of number place }
{
    if number == 0 {
        return Course::Open;
    }
    Course::Refused(answers::refusal_of(number, place))
}
