// Payload A of HiNoC (ITU-T J.195.2, clause 7.4, as document 01 reads it): what sending and receiving share.
//
//   check       the frame check of clause 7.4.2
//   mode        the two modes and their numbers
//   segments    protected fields, and rows of bits one behind the other, clause 7.4.5
#![tactic(auto)]

ghost use Rattle.std.specs.Prelude.{◌≡◌};
ghost use Rattle.payload_a.specs.CodedA.{bytes_a};

pub mod check;
pub mod mode;
pub mod segments;

use crate::mode::ModeA;
use symbols::grid::SUB_CARRIERS;

// The elements of I and of Q that two OFDM symbols take.
pub const ELEMENTS: usize = 2 * SUB_CARRIERS;

// The bytes of a frame, by its mode's number. Any number may come in: all but 0 count as coded.
pub fn bytes_a(mode: u8) -> usize
    ensures { result ≡ bytes_a mode }
{
    match mode {
        0 => ModeA::Uncoded.bytes(),
        _ => ModeA::Coded.bytes(),
    }
}
