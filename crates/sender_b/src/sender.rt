// Payload B, from a frame to the points of as many OFDM symbols as it needs: blocks are put one behind the other into a run, and out of it go OFDM symbols.
ghost use Rattle.std.specs.Prelude.{◌≡◌, ◌≢◌, ◌+◌, ◌%◌, ◌≤◌, ◌<◌, length};
ghost use Rattle.packed.specs.Packed.{bits512};
ghost use Rattle.points.specs.Constellations.{level_i, level_q};
ghost use Rattle.payload_b.specs.CodedB.{block_bytes, bits_for};
ghost use Rattle.payload_b.specs.ModesB.{number_of};
ghost use Rattle.sender_b.specs.Steps.{Piece, coded_piece, Ready, is_short, OneMore, Filled, Gone, Passed, AllSent};

use packed::RUN;
use payload::scrambler;
use payload_b::mode::ModeB;
use payload_b::plan::Plan;
use symbols::grid::SUB_CARRIERS;
use symbols::scheme::Scheme;

// How many bits wait for the next OFDM symbol, the bytes of the frame that they and those before are made of, and the scrambler's register.
#[derive(Clone, Copy)]
pub struct Outgoing {
    pub count: usize,
    pub at: usize,
    pub register: u16,
}

// Bits that wait, at the front of a run, and how many: an array and a count, since there is no heap.
#[derive(Clone, Copy)]
pub struct Run {
    pub bits: [u64; RUN],
    pub going: Outgoing,
}

// The bytes of the frame that are made into bits at once: a block, or uncoded as many as 64.
fn piece(mode: ModeB, left: usize) -> usize
    requires { (0 < left) × (left % block_bytes (number_of mode) ≡ 0) }
    ensures { Piece (number_of mode) left result }
{
    match mode {
        ModeB::Uncoded => left.min(64),
        _ => mode.block_bytes(),
    }
}

// What is sent for the bits of so many bytes.
fn coded(mode: ModeB, bits: [u64; 8]) -> [u64; 8]
    ensures { bits512 result ≡ coded_piece (number_of mode) (bits512 bits) }
{
    match mode {
        ModeB::Uncoded => bits,
        _ => encoder::encode_packed(mode.code(), bits).bits,
    }
}

// How many bits are sent for so many bytes at once.
fn coded_bits(mode: ModeB, bytes: usize) -> usize
    requires { (bytes ≤ 64) × (number_of mode ≢ 0 → bytes ≡ block_bytes (number_of mode)) }
    ensures { result ≡ bits_for (number_of mode) bytes }
{
    match mode {
        ModeB::Uncoded => 8 * bytes,
        _ => mode.block_bits(),
    }
}

// One piece more of the frame goes into the run.
fn one_more(mode: ModeB, frame: &[u8], from: Run) -> Run
    requires { Ready (number_of mode) frame.now from.going × (from.going.at < length frame.now) × (from.going.count ≤ 2112) }
    ensures { OneMore (number_of mode) frame.now from result }
{
    let going = from.going;
    let at = going.at;
    let end = at + piece(mode, frame.len() - at);
    let made = scrambler::pack_bytes(going.register, &frame[at..end]);
    Run {
        bits: packed::put(from.bits, coded(mode, made.bits), going.count),
        going: Outgoing {
            count: going.count + coded_bits(mode, end - at),
            at: end,
            register: made.register,
        },
    }
}

// Pieces of the frame go into the run until it has the bits of an OFDM symbol, or nothing is left of the frame.
fn fill(mode: ModeB, frame: &[u8], sum: usize, from: Run) -> Run
    requires { Ready (number_of mode) frame.now from.going × (sum ≤ 2100) × (from.going.count < sum + 512) }
    ensures { Filled (number_of mode) frame.now sum from result }
{
    let mut run = from;
    while is_short(frame.len(), sum, run.going) {
        run = one_more(mode, frame, run);
    }
    run
}

// Whether fewer bits wait than an OFDM symbol has, and there is more of the frame.
fn is_short(size: usize, sum: usize, going: Outgoing) -> bool
    ensures { result ≡ is_short size sum going }
{
    going.count < sum && going.at < size
}

// The bits behind those of the OFDM symbol: they wait for the next.
fn behind(sum: usize, from: Run) -> Run
    ensures { Gone sum from result }
{
    let going = from.going;
    Run {
        bits: packed::begun(packed::window(&from.bits, sum)),
        going: Outgoing {
            count: going.count.saturating_sub(sum),
            ..going
        },
    }
}

// Sends a frame whose checks pass.
pub(crate) fn send(frame: &[u8], scheme: Scheme, plan: Plan, i: &mut [i16], q: &mut [i16])
    requires { Passed (number_of plan.mode) frame.now scheme.entries.now plan i.old q.old }
    ensures { AllSent level_i (number_of plan.mode) frame.now scheme.entry.entries.now i.old i.new × AllSent level_q (number_of plan.mode) frame.now scheme.entry.entries.now q.old q.new }
{
    let bits = [0; RUN];
    let going = Outgoing {
        count: 0,
        at: 0,
        register: scrambler::START,
    };
    let mut run = Run { bits, going };
    // By index: an OFDM symbol is told by its place in the lists, of which both are written.
    for s in 0..plan.symbols {
        run = fill(plan.mode, frame, plan.sum, run);
        let at = SUB_CARRIERS * s;
        let end = at + SUB_CARRIERS;
        scheme.write(&run.bits, &mut i[at..end], &mut q[at..end]);
        run = behind(plan.sum, run);
    }
}
