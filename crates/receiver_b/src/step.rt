// One step of a stream: an OFDM symbol of a state that is open and sound. The scheme, which no step changes, is lent.
ghost use Rattle.std.specs.Prelude.{◌≡◌, [], ◌++◌, ◌≤◌, length, drop, replicate, Err};
ghost use Rattle.payload_b.specs.PromiseB.{points_checked_b};
ghost use Rattle.payload_b.specs.StreamB.{with_scheme, moving, fresh, stopped, step_checked, Takes, Steps};
ghost use Rattle.payload_b.specs.declared.stream.Course.TheVariants.{Open};
ghost use Rattle.receiver_b.specs.Steps.{Staged, Next, Clean, Taking};

use crate::stream::{Stream, Tally};
use crate::{Moved, stream};
use answers::{MendedB, Refusal};
use payload::scrambler;
use payload_b::stream::{Course, Moving, Stage};
use symbols::grid::SUB_CARRIERS;
use symbols::scheme::Scheme;
use symbols::{Fault, grid};

// Nothing seen yet.
pub(crate) fn unseen(mode: u8, size: usize) -> Moving
    ensures { result ≡ moving (fresh mode size []) }
{
    Moving {
        block: [0u64; 8],
        count: 0,
        mode,
        size,
        seen: 0,
        register: scrambler::START,
        mended: 0,
        worst: 0,
        course: Course::Open,
    }
}

// A refusal is written into what moves of a state.
pub(crate) fn stopped(why: Refusal, s: Moving) -> Moving
    ensures { result ≡ moving (stopped why (with_scheme [] s)) }
{
    Moving {
        course: Course::Refused(why),
        ..s
    }
}

// A refusal that changes nothing.
pub(crate) fn unchanged(why: Refusal, s: Moving) -> Moved
    ensures { (result.answer ≡ Err why) × (result.moving ≡ s) }
{
    Moved {
        answer: Err(why),
        moving: s,
    }
}

// A refusal that is remembered: the frame's bytes are left all zero.
fn stop(why: Refusal, s: Moving, area: &mut [u8]) -> Moved
    requires { s.size ≤ length area.old }
    ensures { (result.answer ≡ Err why) × (result.moving ≡ moving (stopped why (with_scheme [] s))) × (area.new ≡ replicate s.size 0 ++ drop s.size area.old) }
{
    area[0..s.size].fill(0);
    Moved {
        answer: Err(why),
        moving: stopped(why, s),
    }
}

// The OFDM symbol's bits are taken in.
fn take(scheme: Scheme, s: Moving, stage: Stage, i: &[i16], q: &[i16], area: &mut [u8]) -> Moved
    requires { Clean (with_scheme scheme.entries.now s) stage i.now q.now area.old }
    ensures { Taking (with_scheme scheme.entry.entries.now s) i.now q.now area.old result.answer (with_scheme scheme.entry.entries.now result.moving) area.new }
{
    let block = s.block;
    let tally = Tally {
        count: s.count,
        done: stage.done,
        register: s.register,
        mended: s.mended,
        worst: s.worst,
    };
    match stream::take_symbol(scheme, stage.plan, Stream { block, tally }, i, q, area) {
        Err(done) => stop(Refusal::Uncorrectable(done), s, area),
        Ok(end) => {
            let block = end.block;
            let after = end.tally;
            Moved {
                answer: Ok(MendedB {
                    mended: after.mended,
                    worst: after.worst,
                }),
                moving: Moving {
                    block,
                    count: after.count,
                    seen: s.seen + 1,
                    register: after.register,
                    mended: after.mended,
                    worst: after.worst,
                    course: Course::Open,
                    ..s
                },
            }
        }
    }
}

// 7 and 8 of the OFDM symbol go first.
fn look(scheme: Scheme, s: Moving, stage: Stage, i: &[i16], q: &[i16], area: &mut [u8]) -> Moved
    requires { Next (with_scheme scheme.entries.now s) stage i.now q.now area.old }
    ensures { Takes (points_checked_b 1 scheme.entry.entries.now i.now q.now) (with_scheme scheme.entry.entries.now s) i.now q.now area.old result.answer (with_scheme scheme.entry.entries.now result.moving) area.new }
{
    let at = SUB_CARRIERS * s.seen;
    match scheme.first_fault(1, i, q) {
        Ok(()) => take(scheme, s, stage, i, q, area),
        Err(fault) => match fault {
            Fault::Occupied(index) => stop(Refusal::Occupied(at + index), s, area),
            Fault::StrayPoint(index) => stop(Refusal::StrayPoint(at + index), s, area),
        },
    }
}

// 6 after the last OFDM symbol, and 3.
pub(crate) fn next(
    scheme: Scheme,
    s: Moving,
    stage: Stage,
    i: &[i16],
    q: &[i16],
    area: &mut [u8],
) -> Moved
    requires { Staged (with_scheme scheme.entries.now s) stage }
    ensures { Steps (step_checked Open (with_scheme scheme.entry.entries.now s) i.now q.now area.old) (with_scheme scheme.entry.entries.now s) i.now q.now area.old result.answer (with_scheme scheme.entry.entries.now result.moving) area.new }
{
    if stage.plan.symbols <= s.seen {
        return unchanged(Refusal::TooManySymbols, s);
    }
    if !grid::room(SUB_CARRIERS, i, q) {
        return unchanged(Refusal::NoRoom, s);
    }
    if area.len() < s.size {
        return unchanged(Refusal::NoRoom, s);
    }
    look(scheme, s, stage, i, q, area)
}
