// Sending Payload A of HiNoC (ITU-T J.195.2, clause 7.4, as document 01 reads it): a frame to points.
//
//   sender      one frame, whose mode and length are checked
#![tactic(auto)]

ghost use Rattle.payload_a.specs.PromiseA.{SendingA};

mod sender;

use answers::Refusal;
use payload_a::ELEMENTS;
use payload_a::mode::ModeA;
use symbols::grid;

// Sends a frame: mode 0 is uncoded, 94 bytes; mode 1 is coded, 58 bytes. Writes 512 elements of I and of Q.
pub fn send_a(mode: u8, frame: &[u8], i: &mut [i16], q: &mut [i16]) -> Result<(), Refusal>
    ensures { SendingA mode frame.now i.old q.old result i.new q.new }
{
    let mode = ModeA::try_from(mode)?;
    if frame.len() != mode.bytes() {
        return Err(Refusal::WrongLength);
    }
    if !grid::room(ELEMENTS, i, q) {
        return Err(Refusal::NoRoom);
    }
    sender::send(mode, frame, i, q);
    Ok(())
}
