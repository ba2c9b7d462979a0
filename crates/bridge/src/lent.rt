// A stream's state in a caller's memory: 352 bytes, whatever they are. First seventeen numbers of eight bytes, the lowest first: the eight machine words of the
// unfinished block, then count, size, seen, mended, worst, place, number, register and mode, number and place 0 where the stream is open. Then the scheme, a
// byte an entry, and six zeros.
ghost use Rattle.std.specs.Prelude.{◌≡◌, ◌≢◌, ◌++◌, get_or, take, drop, MatchOption};
ghost use Rattle.bridge.specs.Streams.{spread, numbers_in, numbers_of, Formed, moving_in, lent_of, state_of};

use payload_b::stream;
use payload_b::stream::{Moving, State};

// The bytes of a state; its numbers; where the scheme begins, and where the zeros behind it.
pub(crate) const BYTES: usize = 352;

const NUMBERS: usize = 17;

pub(crate) const SCHEME: usize = 136;

pub(crate) const ZEROS: usize = 346;

// Writes a state: it is the one that is found there.
pub(crate) fn hold(state: State, out: &mut [u8; BYTES])
    ensures { (out.new ≡ lent_of state) × (state_of out.new ≡ state) }
{
    put_numbers(&numbers_of(stream::without_scheme(state)), out);
    out[SCHEME..ZEROS].copy_from_slice(&state.scheme);
    out[ZEROS..].fill(0);
}

// Writes the numbers: what is behind them is left as it is. By index: what an iterator over the written part leaves there no clause says.
pub(crate) fn put_numbers(numbers: &[u64; NUMBERS], out: &mut [u8; BYTES])
    ensures { out.new ≡ spread 17 (λ k. get_or numbers.now k 0) ++ drop 136 out.old }
{
    for k in 0..NUMBERS {
        out[8 * k..8 * k + 8].copy_from_slice(&numbers[k].to_le_bytes());
    }
}

// The numbers of what moves of a state, each in its place: `as` for all, since a usize has no `From`, and the block word by word, since a copy of it would need
// zeros first.
pub(crate) fn numbers_of(m: Moving) -> [u64; NUMBERS]
    ensures { (result ≡ numbers_of m) × Formed m }
{
    let told = stream::told(m.course);
    [
        m.block[0],
        m.block[1],
        m.block[2],
        m.block[3],
        m.block[4],
        m.block[5],
        m.block[6],
        m.block[7],
        m.count as u64,
        m.size as u64,
        m.seen as u64,
        m.mended as u64,
        m.worst as u64,
        told.place as u64,
        told.number as u64,
        m.register as u64,
        m.mode as u64,
    ]
}

// What moves of a state, by its numbers.
fn moving_in(n: [u64; NUMBERS]) -> Moving
    ensures { result ≡ moving_in n }
{
    Moving {
        block: [n[0], n[1], n[2], n[3], n[4], n[5], n[6], n[7]],
        count: n[8] as usize,
        mode: (n[16] % 256) as u8,
        size: n[9] as usize,
        seen: n[10] as usize,
        register: (n[15] % 65536) as u16,
        mended: n[11] as usize,
        worst: n[12] as usize,
        course: stream::course_of(n[14], n[13] as usize),
    }
}

// The numbers in bytes.
fn numbers_in(bytes: &[u8; BYTES]) -> [u64; NUMBERS]
    ensures { (result ≡ numbers_in bytes.now) × (spread 17 (λ k. get_or result k 0) ≡ take 136 bytes.now) }
{
    let mut out = [0u64; NUMBERS];
    for k in 0..NUMBERS {
        let mut word = [0u8; 8];
        word.copy_from_slice(&bytes[8 * k..8 * k + 8]);
        out[k] = u64::from_le_bytes(word);
    }
    out
}

// What moves of the state that bytes hold, if they hold one: a refusal's place and number, register and mode can be others than those of any state, and so can
// the zeros.
pub(crate) fn found(bytes: &[u8; BYTES]) -> Option<Moving>
    ensures { MatchOption result (bytes.now ≢ lent_of (state_of bytes.now)) (λ m. (m ≡ moving_in (numbers_in bytes.now)) × (bytes.now ≡ lent_of (state_of bytes.now))) }
{
    let numbers = numbers_in(bytes);
    let moving = moving_in(numbers);
    if numbers == numbers_of(moving) && bytes[ZEROS..] == [0; 6] {
        Some(moving)
    } else {
        None
    }
}
