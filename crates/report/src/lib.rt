// The report of the bench program (document 01, "Bench program"): a frame is sent as Payload A and received back, and the answer is put into
// words. Every number in the text is one of the answer's, but for the length of the frame.
//
//   writer    a text, words and numbers one behind the other
//   lines     the lines for each answer
#![tactic(auto)]

ghost use Rattle.std.specs.Prelude.{◌≡◌, ◌≤◌, length};
ghost use Rattle.answers.specs.Answers.{of_received_a};
ghost use Rattle.report.specs.Lines.{lines_of, text_of, Counted};
ghost use Rattle.report.specs.Made.{mode_for, trip_of};

use answers::{MendedA, Refusal, Told};
use payload_a::ELEMENTS;

mod lines;
mod writer;

// A text of at most 128 bytes: the first count of them, and zeros behind. It is put together here and not by std's `write!`, which answers a Result: no clause
// of std says that it is Ok where there is room, and what `report` ensures has no other case.
#[derive(Clone, Copy)]
pub struct Text {
    pub bytes: [u8; 128],
    pub count: usize,
}

// The mode for a frame of n bytes, by the number that sending and receiving take. The sender refuses a frame that has another length than its mode's.
fn mode_for(n: usize) -> u8
    ensures { result ≡ mode_for n }
{
    if n == 94 { 0 } else { 1 }
}

// Sends a frame and receives it back: what the receiver answers, or the sender's refusal.
fn trip(mode: u8, frame: &[u8]) -> Result<MendedA, Refusal>
    requires { mode ≤ 1 }
    ensures { of_received_a result ≡ trip_of mode (length frame.now) }
{
    let mut i = [0i16; ELEMENTS];
    let mut q = [0i16; ELEMENTS];
    sender_a::send_a(mode, frame, &mut i, &mut q)?;
    let mut area = [0u8; 94];
    receiver_a::receive_a(mode, &i, &q, &mut area).answer
}

// What the bench program writes for a frame.
pub fn report(frame: &[u8]) -> Text
    ensures value { result ≡ text_of (lines_of (length frame.now)) }
    ensures counted { Counted result }
{
    let n = frame.len();
    lines::answered(n, Told::from(trip(mode_for(n), frame)))
}
