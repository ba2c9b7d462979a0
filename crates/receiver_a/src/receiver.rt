// Payload A, from the points of two OFDM symbols to a frame. That the area has room for it is a clause of each function down to the one that writes it, and no
// type: a struct of a list that is written would lend it on at each call. Of I and Q together two functions would have the use.
ghost use Rattle.std.specs.Prelude.{◌≡◌, true, false, ◌++◌, ◌+◌, ◌*◌, ◌≤◌, length};
ghost use Rattle.bits.specs.Words.{Bits, digits};
ghost use Rattle.points.specs.Dqpsk.{dibits, stray_at};
ghost use Rattle.symbols.specs.Grids.{received};
ghost use Rattle.payload_a.specs.Segments.{symbol_bits};
ghost use Rattle.payload_a.specs.CodedA.{bytes_a};
ghost use Rattle.payload_a.specs.Modes.{number_of};
ghost use Rattle.payload_a.specs.PromiseA.{elements_a, noise_checked, points_checked, Answered, Receives};
ghost use Rattle.receiver_a.specs.Steps.{Pair, Rows, flat_of, Delivered, Mends, burst_of};

use crate::rows;
use answers::{DecodedWord, MendedA, PLACES, ReceivedBurst, Refusal};
use payload::scrambler;
use payload_a::mode::ModeA;
use payload_a::segments::{BLOCK, MOST_DIFFERING, SYMBOL};
use payload_a::{ELEMENTS, check, segments};
use symbols::grid::SUB_CARRIERS;
use symbols::{Fault, phases};

// Whether 32 bits are those of a check.
fn is_check(check: u32, bits: &[u8]) -> bool
    requires { Bits bits.now × (length bits.now ≡ 32) }
    ensures { (result ≡ true → bits.now ≡ digits 32 check) × (result ≡ false → bits.now ≡ digits 32 check → ⊥) }
{
    bits::as_number(bits) == check
}

// Unscrambles bits, in place, and writes the frame to the area if its check is right.
fn deliver(bits: &mut [u8], area: &mut [u8]) -> Result<(), Refusal>
    requires { Bits bits.old × (length bits.old ≡ 8 * length area.old + 32) }
    ensures { Delivered bits.old area.old result area.new }
{
    let n = area.len() * 8;
    let end = bits.len();
    scrambler::scramble(scrambler::START, bits);
    let check = check::check_of(&bits[0..n]);
    if !is_check(check, &bits[n..end]) {
        return Err(Refusal::WrongCheck);
    }
    bits::put_bytes(&bits[0..n], area);
    Ok(())
}

// An uncoded frame. Two rows go by value, as document 01 has them, so that their elements are bits is a clause.
fn uncoded(
    rows: [[u8; BLOCK]; 2],
    differing: usize,
    area: &mut [u8],
) -> Result<ReceivedBurst, Refusal>
    requires { Rows rows × (94 ≤ length area.old) }
    ensures { Answered 0 (flat_of rows) differing area.old (burst_of result) area.new }
{
    let mut bits = segments::flat(rows);
    deliver(&mut bits, &mut area[0..94])?;
    Ok(ReceivedBurst {
        answer: Ok(MendedA {
            mended: 0,
            protected: differing,
            worst: 0,
        }),
        first: [0; PLACES],
        second: [0; PLACES],
    })
}

// Mends a row, and writes its codeword to word: answers how many bits it mended, and their places, or a refusal with the row's number.
fn mend(
    number: usize,
    row: &[u8; BLOCK],
    word: &mut [u8; BLOCK],
) -> Result<(usize, [u16; PLACES]), Refusal>
    requires { Bits row.now }
    ensures { Mends number row.now result word.new }
{
    let DecodedWord { answer, places } = decoder::decode(3, row, word);
    match answer {
        Ok(mended) => Ok((mended, places)),
        Err(_) => Err(Refusal::Uncorrectable(number)),
    }
}

// A coded frame: each row is mended.
fn coded(
    rows: [[u8; BLOCK]; 2],
    differing: usize,
    area: &mut [u8],
) -> Result<ReceivedBurst, Refusal>
    requires { Rows rows × (58 ≤ length area.old) }
    ensures { Answered 1 (flat_of rows) differing area.old (burst_of result) area.new }
{
    let mut word0 = [0u8; BLOCK];
    let (in_first, first) = mend(0, &rows[0], &mut word0)?;
    let mut word1 = [0u8; BLOCK];
    let (in_second, second) = mend(1, &rows[1], &mut word1)?;
    let mut bits: [u8; 496] = rows::joined(&word0[0..248], &word1[0..248]);
    deliver(&mut bits, &mut area[0..58])?;
    let counts = MendedA {
        mended: in_first + in_second,
        protected: differing,
        worst: in_first.max(in_second),
    };
    Ok(ReceivedBurst {
        answer: Ok(counts),
        first,
        second,
    })
}

// The answer for 784 bits in two rows, and so many protected bits that differ.
fn answer(
    mode: ModeA,
    rows: [[u8; BLOCK]; 2],
    differing: usize,
    area: &mut [u8],
) -> Result<ReceivedBurst, Refusal>
    requires { Rows rows × (bytes_a (number_of mode) ≤ length area.old) }
    ensures { Answered (number_of mode) (flat_of rows) differing area.old (burst_of result) area.new }
{
    match mode {
        ModeA::Uncoded => uncoded(rows, differing, area),
        ModeA::Coded => coded(rows, differing, area),
    }
}

// Check 11, and then the answer, for the bits of two OFDM symbols.
fn read(
    mode: ModeA,
    first: &[u8; SYMBOL],
    second: &[u8; SYMBOL],
    area: &mut [u8],
) -> Result<ReceivedBurst, Refusal>
    requires { Pair symbol_bits first.now second.now × (bytes_a (number_of mode) ≤ length area.old) }
    ensures { Receives (noise_checked (first.now ++ second.now)) (number_of mode) (first.now ++ second.now) area.old (burst_of result) area.new }
{
    let differing = rows::differing(first) + rows::differing(second);
    if MOST_DIFFERING < differing {
        return Err(Refusal::Noise);
    }
    let rows = [rows::block(first), rows::block(second)];
    answer(mode, rows, differing, area)
}

// The answer for points that are legal: the phase of the first OFDM symbol's last point is carried on.
fn legal(mode: ModeA, i: &[i16], q: &[i16], area: &mut [u8]) -> Result<ReceivedBurst, Refusal>
    requires { (elements_a ≤ length i.now) × (elements_a ≤ length q.now) × (bytes_a (number_of mode) ≤ length area.old) × (stray_at (received 2 i.now q.now) ≡ length (received 2 i.now q.now)) }
    ensures { Receives (noise_checked (dibits (received 2 i.now q.now))) (number_of mode) (dibits (received 2 i.now q.now)) area.old (burst_of result) area.new }
{
    let first = phases::read(0, &i[0..SUB_CARRIERS], &q[0..SUB_CARRIERS]);
    let second = phases::read(
        first.last,
        &i[SUB_CARRIERS..ELEMENTS],
        &q[SUB_CARRIERS..ELEMENTS],
    );
    read(mode, &first.bits, &second.bits, area)
}

// Checks 7 and 8, and then the answer. (`symbols` knows no refusals: its faults are told here.)
pub(crate) fn receive(
    mode: ModeA,
    i: &[i16],
    q: &[i16],
    area: &mut [u8],
) -> Result<ReceivedBurst, Refusal>
    requires { (elements_a ≤ length i.now) × (elements_a ≤ length q.now) × (bytes_a (number_of mode) ≤ length area.old) }
    ensures { Receives (points_checked i.now q.now) (number_of mode) (dibits (received 2 i.now q.now)) area.old (burst_of result) area.new }
{
    match phases::first_fault(2, i, q) {
        Err(Fault::Occupied(index)) => Err(Refusal::Occupied(index)),
        Err(Fault::StrayPoint(index)) => Err(Refusal::StrayPoint(index)),
        Ok(()) => legal(mode, i, q, area),
    }
}
