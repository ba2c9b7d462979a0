// The calls of the house as C functions, for programs in other languages to link: use/c/ortkaveq.h declares them for C and C++, and says what a caller owes.
// A slice is passed as a pointer and then a length.
#![tactic(auto)]

ghost use Rattle.std.specs.Prelude.{◌≡◌, ◌^◌, ◌<◌};
ghost use Rattle.bridge.specs.Calls.{answer_of, received_of, EncodeCall, DecodeCall, SendACall, ReceiveACall, SendBCall, ReceiveBCall, SymbolsBCall};
ghost use Rattle.bridge.specs.Calls.{OpenBCall, StepBCall, DecideACall, DecideBCall};

mod lent;

use answers::{PLACES, Refusal, Told};
use lent::{BYTES, SCHEME, ZEROS};
use payload_b::plan;

// The number, 0 for success, its place, and the count of bits mended, 0 where the call has none.
#[repr(C)]
#[derive(Clone, Copy)]
pub struct Answer {
    pub number: u32,
    pub mended: u32,
    pub place: u64,
}

// The same of receiving, Payload A or Payload B, with all counts: the bits mended, the protected bits that differ, 0 in Payload B, and the bits mended in the
// worst block. It is no larger, so that it too comes back in registers.
#[repr(C)]
#[derive(Clone, Copy)]
pub struct Received {
    pub number: u16,
    pub mended: u16,
    pub protected: u16,
    pub worst: u16,
    pub place: u64,
}

// The number, 0 for success, its place, and the OFDM symbols that a frame needs, 0 in a refusal.
#[repr(C)]
#[derive(Clone, Copy)]
pub struct Needed {
    pub number: u32,
    pub symbols: u32,
    pub place: u64,
}

// Writes the n bits of the codeword for the k bits of word.
#[unsafe(no_mangle)]
pub extern "C" fn ortkaveq_encode(code: u8, word: &[u8], out: &mut [u8]) -> Answer
    ensures { EncodeCall code word.now out.old result out.new }
{
    answer_of(Told::from(encoder::encode(code, word, out)))
}

// Writes the n bits of the codeword that differs from the n bits of word in at most t places, if there is one, and the list of those places; 0 in a refusal.
#[unsafe(no_mangle)]
pub extern "C" fn ortkaveq_decode(
    code: u8,
    word: &[u8],
    out: &mut [u8],
    places: &mut [u16; PLACES],
) -> Answer
    ensures { DecodeCall code word.now out.old result out.new places.new }
{
    let decoded = decoder::decode(code, word, out);
    // By a variable: of a field that is an array the borrow checker covers no straight store.
    let list = decoded.places;
    *places = list;
    answer_of(Told::from(decoded.answer))
}

// Sends a frame of Payload A: writes 512 elements of I and of Q.
#[unsafe(no_mangle)]
pub extern "C" fn ortkaveq_send_a(mode: u8, frame: &[u8], i: &mut [i16], q: &mut [i16]) -> Answer
    ensures { SendACall mode frame.now i.old q.old result i.new q.new }
{
    answer_of(Told::from(sender_a::send_a(mode, frame, i, q)))
}

// Receives a frame of Payload A from 512 elements of I and of Q: writes its bytes to the first of the area, and the lists of the places mended in each half;
// 0 in a refusal.
#[unsafe(no_mangle)]
pub extern "C" fn ortkaveq_receive_a(
    mode: u8,
    i: &[i16],
    q: &[i16],
    area: &mut [u8],
    first: &mut [u16; PLACES],
    second: &mut [u16; PLACES],
) -> Received
    ensures { ReceiveACall mode i.now q.now area.old result area.new first.new second.new }
{
    let received = receiver_a::receive_a(mode, i, q, area);
    let of_first = received.first;
    let of_second = received.second;
    *first = of_first;
    *second = of_second;
    all_told(Told::from(received.answer))
}

// Sends a frame of Payload B by a scheme: writes 256 elements of I and of Q for each OFDM symbol needed.
#[unsafe(no_mangle)]
pub extern "C" fn ortkaveq_send_b(
    mode: u8,
    frame: &[u8],
    scheme: &[u8],
    i: &mut [i16],
    q: &mut [i16],
) -> Answer
    ensures { SendBCall mode frame.now scheme.now i.old q.old result i.new q.new }
{
    answer_of(Told::from(sender_b::send_b(mode, frame, scheme, i, q)))
}

// Receives a frame of Payload B, of so many bytes: writes them to the first of the area.
#[unsafe(no_mangle)]
pub extern "C" fn ortkaveq_receive_b(
    mode: u8,
    size: usize,
    scheme: &[u8],
    i: &[i16],
    q: &[i16],
    area: &mut [u8],
) -> Received
    ensures { ReceiveBCall mode size scheme.now i.now q.now area.old result area.new }
{
    all_told(Told::from(receiver_b::receive_b(mode, size, scheme, i, q, area)))
}

// How many OFDM symbols a frame of Payload B needs, of so many bytes, by a scheme: send and receive B ask for 256 elements of I and of Q for each.
#[unsafe(no_mangle)]
pub extern "C" fn ortkaveq_symbols_b(mode: u8, size: usize, scheme: &[u8]) -> Needed
    ensures { SymbolsBCall mode size scheme.now result }
{
    match plan::judged(mode, size, scheme) {
        Ok(plan) => Needed {
            number: 0,
            symbols: plan.symbols as u32,
            place: 0,
        },
        Err(why) => none_needed(Told::from(why)),
    }
}

// Opens a stream of Payload B for a frame of so many bytes: writes its state to the 352 bytes of stream.
#[unsafe(no_mangle)]
pub extern "C" fn ortkaveq_open_b(
    mode: u8,
    size: usize,
    scheme: &[u8],
    stream: &mut [u8; BYTES],
) -> Answer
    ensures { OpenBCall mode size scheme.now result stream.new }
{
    let state = receiver_b::open_b(mode, size, scheme);
    lent::hold(state, stream);
    answer_of(payload_b::stream::told(state.course))
}

// Receives the next OFDM symbol of a stream, 256 elements of I and of Q: writes the bytes of the blocks that are complete by it to their place in the area, and
// the state after it to stream.
#[unsafe(no_mangle)]
pub extern "C" fn ortkaveq_step_b(
    stream: &mut [u8; BYTES],
    i: &[i16],
    q: &[i16],
    area: &mut [u8],
) -> Received
    ensures { StepBCall stream.old i.now q.now area.old result stream.new area.new }
{
    let Some(from) = lent::found(stream) else {
        return all_told(Told::from(Refusal::Forged));
    };
    let moved = receiver_b::step_lent(&stream[SCHEME..ZEROS], from, i, q, area);
    lent::put_numbers(&lent::numbers_of(moved.moving), stream);
    all_told(Told::from(moved.answer))
}

// Decides noisy points of Payload A, in sixty-fourths of a level, to the nearest: writes 512 elements of oi and of oq.
#[unsafe(no_mangle)]
pub extern "C" fn ortkaveq_decide_a(
    mode: u8,
    i: &[i16],
    q: &[i16],
    oi: &mut [i16],
    oq: &mut [i16],
) -> Answer
    ensures { DecideACall mode i.now q.now oi.old oq.old result oi.new oq.new }
{
    answer_of(Told::from(decider::decide_a(mode, i, q, oi, oq)))
}

// Decides those of Payload B, by mode, frame length and scheme: writes 256 elements of oi and of oq for each OFDM symbol needed.
#[unsafe(no_mangle)]
pub extern "C" fn ortkaveq_decide_b(
    mode: u8,
    size: usize,
    scheme: &[u8],
    i: &[i16],
    q: &[i16],
    oi: &mut [i16],
    oq: &mut [i16],
) -> Answer
    ensures { DecideBCall mode size scheme.now i.now q.now oi.old oq.old result oi.new oq.new }
{
    answer_of(Told::from(decider::decide_b(mode, size, scheme, i, q, oi, oq)))
}

// What an answer tells, with one count.
fn answer_of(t: Told) -> Answer
    requires { t.mended < 2 ^ 32 }
    ensures { result ≡ answer_of t }
{
    Answer {
        number: u32::from(t.number),
        mended: t.mended as u32,
        place: t.place as u64,
    }
}

// All that an answer of receiving tells.
fn all_told(t: Told) -> Received
    requires { (t.mended < 2 ^ 16) × (t.protected < 2 ^ 16) × (t.worst < 2 ^ 16) }
    ensures { result ≡ received_of t }
{
    Received {
        number: u16::from(t.number),
        mended: t.mended as u16,
        protected: t.protected as u16,
        worst: t.worst as u16,
        place: t.place as u64,
    }
}

// No OFDM symbols, for what a refusal tells.
fn none_needed(t: Told) -> Needed
    ensures { result ≡ record { number = t.number; symbols = 0; place = t.place } }
{
    Needed {
        number: u32::from(t.number),
        symbols: 0,
        place: t.place as u64,
    }
}
