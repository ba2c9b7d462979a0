// Payload A, from a frame to the points of two OFDM symbols.
ghost use Rattle.std.specs.Prelude.{◌≡◌, [], ◌∷◌, ◌++◌, ◌+◌, ◌*◌, ◌≤◌, length, take, drop};
ghost use Rattle.bits.specs.Words.{Bits};
ghost use Rattle.bch.specs.Codes.{code3, encoded};
ghost use Rattle.payload_a.specs.Segments.{segment_bits, row_bits, symbol_of, framed};
ghost use Rattle.payload_a.specs.Modes.{number_of};
ghost use Rattle.payload_a.specs.PromiseA.{elements_a};
ghost use Rattle.payload_a.specs.CodedA.{bytes_a, information, blocks_a, coded_a, sent_i, sent_q};
ghost use Rattle.points.specs.Constellations.{level_i, level_q};
ghost use Rattle.points.specs.Dqpsk.{turned};
ghost use Rattle.symbols.specs.Grids.{placed};

use payload::scrambler;
use payload_a::mode::ModeA;
use payload_a::segments::{BLOCK, CARRIED, SEGMENT, SYMBOL};
use payload_a::{ELEMENTS, check, segments};
use symbols::grid::SUB_CARRIERS;
use symbols::phases;

// The bits of a frame and its check, scrambled.
fn put_information(frame: &[u8], out: &mut [u8])
    requires { length out.old ≡ 8 * length frame.now + 32 }
    ensures { out.new ≡ information frame.now }
{
    let n = out.len() - 32;
    bits::put_bits(frame, &mut out[..n]);
    let check = check::check_of(&out[..n]);
    bits::put_digits(check, &mut out[n..]);
    scrambler::scramble(scrambler::START, out);
}

// The codeword of code 3 for 248 bits, which is not refused: there is room for it.
fn block(information: &[u8]) -> [u8; BLOCK]
    requires { Bits information.now × (length information.now ≡ code3.k) }
    ensures { result ≡ encoded code3 information.now }
{
    let mut out = [0u8; BLOCK];
    let _ = encoder::encode(3, information, &mut out);
    out
}

// The two blocks of 496 bits.
fn blocks(information: &[u8; 496]) -> [[u8; BLOCK]; 2]
    requires { Bits information.now }
    ensures { result ≡ encoded code3 (take code3.k information.now) ∷ encoded code3 (drop code3.k information.now) ∷ [] }
{
    [block(&information[0..248]), block(&information[248..496])]
}

// The 784 bits of an uncoded frame.
fn uncoded(frame: &[u8]) -> [u8; CARRIED]
    requires { length frame.now ≡ 94 }
    ensures { result ≡ information frame.now }
{
    let mut out = [0u8; CARRIED];
    put_information(frame, &mut out);
    out
}

// The 784 bits of a coded frame.
fn coded(frame: &[u8]) -> [u8; CARRIED]
    requires { length frame.now ≡ 58 }
    ensures { result ≡ blocks_a (information frame.now) }
{
    let mut information = [0u8; 496];
    put_information(frame, &mut information);
    segments::flat(blocks(&information))
}

// The 784 bits of a frame, protected fields left out.
#[tactic(auto, unfolding(payload_a::specs::CodedA::coded_a))]
fn carried(mode: ModeA, frame: &[u8]) -> [u8; CARRIED]
    requires { length frame.now ≡ bytes_a (number_of mode) }
    ensures { result ≡ coded_a (number_of mode) frame.now }
{
    match mode {
        ModeA::Uncoded => uncoded(frame),
        ModeA::Coded => coded(frame),
    }
}

// The bits of an OFDM symbol with two segments.
fn symbol(block: &[u8]) -> [u8; SYMBOL]
    requires { length block.now ≡ row_bits }
    ensures { result ≡ symbol_of (take segment_bits block.now) (drop segment_bits block.now) }
{
    let mut out = [0u8; SYMBOL];
    segments::put(&segments::FIELD1, 0, &mut out);
    segments::put(&block[0..SEGMENT], 10, &mut out);
    segments::put(&segments::FIELD2, 206, &mut out);
    segments::put(&block[SEGMENT..BLOCK], 216, &mut out);
    segments::put(&segments::FIELD3, 412, &mut out);
    out
}

// Puts the points of 784 bits onto the two OFDM symbols. (I and Q stay two lists: a struct of both would lend them on at each call.)
fn put_points(bits: &[u8; CARRIED], i: &mut [i16], q: &mut [i16])
    requires { Bits bits.now × (elements_a ≤ length i.old) × (elements_a ≤ length q.old) }
    ensures { (i.new ≡ placed level_i 2 (turned (framed bits.now)) ++ drop elements_a i.old) × (q.new ≡ placed level_q 2 (turned (framed bits.now)) ++ drop elements_a q.old) }
{
    let last = phases::write(
        0,
        &symbol(&bits[0..BLOCK]),
        &mut i[0..SUB_CARRIERS],
        &mut q[0..SUB_CARRIERS],
    );
    phases::write(
        last,
        &symbol(&bits[BLOCK..CARRIED]),
        &mut i[SUB_CARRIERS..ELEMENTS],
        &mut q[SUB_CARRIERS..ELEMENTS],
    );
}

// Sends a frame of the mode's length.
pub(crate) fn send(mode: ModeA, frame: &[u8], i: &mut [i16], q: &mut [i16])
    requires { (length frame.now ≡ bytes_a (number_of mode)) × (elements_a ≤ length i.old) × (elements_a ≤ length q.old) }
    ensures { (i.new ≡ sent_i (number_of mode) frame.now ++ drop elements_a i.old) × (q.new ≡ sent_q (number_of mode) frame.now ++ drop elements_a q.old) }
{
    put_points(&carried(mode, frame), i, q);
}
