// Receives Payload B of HiNoC (ITU-T J.195.2, clause 7.5, as document 01 reads it): a frame from as many as 256 OFDM symbols, whole or one symbol at a time.
//
//   block      one block, mended
//   stream     bits on their way, block by block
//   receiver   one frame, whose checks pass but for those of points
//   step       one OFDM symbol of a stream
#![tactic(auto)]

ghost use Rattle.payload_b.specs.PromiseB.{ReceivingB};
ghost use Rattle.payload_b.specs.StreamB.{with_scheme, OpeningB, SteppingB};

mod block;
mod receiver;
mod step;
mod stream;

use answers::{MendedB, Refusal};
use payload_b::stream::{Course, Moving, State};
use payload_b::{plan, stream as stream_b};
use symbols::grid;
use symbols::grid::{POINTS, SUB_CARRIERS};

// Receives a frame of so many bytes, and writes it to the first of the area.
pub fn receive_b(
    mode: u8,
    size: usize,
    scheme: &[u8],
    i: &[i16],
    q: &[i16],
    area: &mut [u8],
) -> Result<MendedB, Refusal>
    ensures { ReceivingB mode size scheme.now i.now q.now area.old result area.new }
{
    let checked = plan::checked(mode, size, scheme)?;
    let plan = checked.plan;
    if !grid::room(SUB_CARRIERS * plan.symbols, i, q) {
        return Err(Refusal::NoRoom);
    }
    if area.len() < size {
        return Err(Refusal::NoRoom);
    }
    receiver::receive(size, checked.scheme, plan, i, q, area)
}

// Opens a stream for a frame of so many bytes: the state before its first OFDM symbol, or one that holds the refusal.
pub fn open_b(mode: u8, size: usize, scheme: &[u8]) -> State
    ensures { OpeningB mode size scheme.now result }
{
    match plan::judged(mode, size, scheme) {
        Err(why) => stream_b::with_scheme([0; POINTS], step::stopped(why, step::unseen(0, 0))),
        Ok(_) => {
            let mut kept = [0; POINTS];
            kept.copy_from_slice(&scheme[..POINTS]);
            stream_b::with_scheme(kept, step::unseen(mode, size))
        }
    }
}

// What a step answers, and the state after it.
#[derive(Clone, Copy)]
pub struct Stepped {
    pub answer: Result<MendedB, Refusal>,
    pub state: State,
}

// Takes the next OFDM symbol of a stream in, the first 256 elements of i and q, and writes the bytes of the blocks that are complete with it to their place in
// the area.
pub fn step_b(state: State, i: &[i16], q: &[i16], area: &mut [u8]) -> Stepped
    ensures { SteppingB state i.now q.now area.old result.answer result.state area.new }
{
    let moved = step_lent(&state.scheme, stream_b::without_scheme(state), i, q, area);
    Stepped {
        answer: moved.answer,
        state: stream_b::with_scheme(state.scheme, moved.moving),
    }
}

// The same where the scheme is lent: what a step answers, and what has moved of the state.
#[derive(Clone, Copy)]
pub struct Moved {
    pub answer: Result<MendedB, Refusal>,
    pub moving: Moving,
}

// Takes the next OFDM symbol of a stream in, whose state is this scheme and what moves.
pub fn step_lent(scheme: &[u8], from: Moving, i: &[i16], q: &[i16], area: &mut [u8]) -> Moved
    ensures { SteppingB (with_scheme scheme.now from) i.now q.now area.old result.answer (with_scheme scheme.now result.moving) area.new }
{
    match from.course {
        Course::Refused(why) => step::unchanged(why, from),
        Course::Open => match stream_b::checked(scheme, from) {
            None => step::unchanged(Refusal::Forged, from),
            Some(found) => step::next(found.scheme, from, found.stage, i, q, area),
        },
    }
}
