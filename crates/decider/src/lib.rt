// Decides noisy points of HiNoC (document 02, item 1): levels in sixty-fourths to the nearest points, for Payload A and for Payload B.
//
//   grids    as many OFDM symbols as a frame has
//   symbol   one OFDM symbol
//   tables   by which table each of its points is decided
#![tactic(auto)]

ghost use Rattle.std.specs.Prelude.{◌≡◌, ◌&&◌};
ghost use Rattle.symbols.specs.Grids.{room};
ghost use Rattle.decisions.specs.Deciding.{DecidingA, DecidingB};

mod grids;
mod symbol;
mod tables;

use answers::Refusal;
use payload_a::mode::ModeA;
use payload_b::plan;
use payload_b::plan::Frame;
use symbols::grid;
use symbols::grid::SUB_CARRIERS;
use tables::Dqpsk;

// The OFDM symbols of Payload A.
const SYMBOLS_A: usize = 2;

// Decides the points of Payload A, 512 elements of I and of Q, into oi and oq.
pub fn decide_a(
    mode: u8,
    i: &[i16],
    q: &[i16],
    oi: &mut [i16],
    oq: &mut [i16],
) -> Result<(), Refusal>
    ensures { DecidingA mode i.now q.now oi.old oq.old result oi.new oq.new }
{
    ModeA::try_from(mode)?;
    if !has_room(SUB_CARRIERS * SYMBOLS_A, i, q, oi, oq) {
        return Err(Refusal::NoRoom);
    }
    grids::decide(Dqpsk, SYMBOLS_A, i, q, oi, oq);
    Ok(())
}

// Decides the points of Payload B, by mode, frame length and scheme: 256 elements of I and of Q for each OFDM symbol needed, into oi and oq.
pub fn decide_b(
    mode: u8,
    size: usize,
    scheme: &[u8],
    i: &[i16],
    q: &[i16],
    oi: &mut [i16],
    oq: &mut [i16],
) -> Result<(), Refusal>
    ensures { DecidingB mode size scheme.now i.now q.now oi.old oq.old result oi.new oq.new }
{
    let Frame { plan, scheme } = plan::checked(mode, size, scheme)?;
    if !has_room(SUB_CARRIERS * plan.symbols, i, q, oi, oq) {
        return Err(Refusal::NoRoom);
    }
    grids::decide(scheme, plan.symbols, i, q, oi, oq);
    Ok(())
}

// Whether all four lists have room for so many elements.
fn has_room(n: usize, i: &[i16], q: &[i16], oi: &[i16], oq: &[i16]) -> bool
    ensures { result ≡ (room n i.now q.now && room n oi.now oq.now) }
{
    grid::room(n, i, q) && grid::room(n, oi, oq)
}
