// Sends Payload B of HiNoC (ITU-T J.195.2, clause 7.5, as document 01 reads it): a frame to as many as 256 OFDM symbols.
//
//   sender   one frame, whose checks pass
#![tactic(auto)]

ghost use Rattle.payload_b.specs.PromiseB.{SendingB};

mod sender;

use answers::Refusal;
use payload_b::plan;
use symbols::grid;
use symbols::grid::SUB_CARRIERS;

// Sends a frame by a scheme of bits per point: mode 0 is uncoded, 1 uses (508,472), 2 uses (504,432). Writes 256 elements of I and of Q for each
// OFDM symbol needed.
pub fn send_b(
    mode: u8,
    frame: &[u8],
    scheme: &[u8],
    i: &mut [i16],
    q: &mut [i16],
) -> Result<(), Refusal>
    ensures { SendingB mode frame.now scheme.now i.old q.old result i.new q.new }
{
    let checked = plan::checked(mode, frame.len(), scheme)?;
    let plan = checked.plan;
    if !grid::room(SUB_CARRIERS * plan.symbols, i, q) {
        return Err(Refusal::NoRoom);
    }
    sender::send(frame, checked.scheme, plan, i, q);
    Ok(())
}
