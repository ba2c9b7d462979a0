// What the checks 1, 2, 5 and 6 find out about a frame of Payload B.
ghost use Rattle.std.specs.Prelude.{◌≡◌, Ok, Err, MatchResult, suc, min, ◌+◌, ◌-◌, ◌*◌, ◌/◌, ◌≤◌};
ghost use Rattle.payload_b.specs.CodedB.{block_bytes, block_bits};
ghost use Rattle.symbols.specs.Schemes.{sum_of};
ghost use Rattle.payload_b.specs.PromiseB.{most_symbols};
ghost use Rattle.payload_b.specs.ModesB.{number_of, mode_of};
ghost use Rattle.payload_b.specs.PlanB.{Judged};

use crate::mode::ModeB;
use answers::Refusal;
use symbols::grid::POINTS;
use symbols::scheme::Scheme;

// A frame that needs more OFDM symbols is refused.
pub const MOST_SYMBOLS: usize = 256;

// The mode of a number; of one that no mode has, the last.
fn numbered(mode: u8) -> ModeB
    ensures { result ≡ mode_of mode }
{
    ModeB::try_from(mode).unwrap_or(ModeB::Code2)
}

// The bytes of a block, by a mode's number: the promise (docs/CLAIMS) is of any number that may come in.
pub fn block_bytes(mode: u8) -> usize
    ensures { result ≡ block_bytes mode }
{
    numbered(mode).block_bytes()
}

// The bits sent for a block, by a mode's number, any one too.
pub fn block_bits(mode: u8) -> usize
    ensures { result ≡ block_bits mode }
{
    numbered(mode).block_bits()
}

// The bits of an OFDM symbol: those of the scheme's 210 entries. They are added up in 16 bits and over a length that stands here, so that the compiler takes
// many at a time.
fn sum(scheme: Scheme) -> usize
    ensures { result ≡ sum_of scheme.entry.entries.now }
{
    let mut n: u16 = 0;
    for &entry in &scheme.entries()[..POINTS] {
        n += u16::from(entry);
    }
    usize::from(n)
}

// The OFDM symbols that so many blocks need, of so many bits each, or 257 where more than 256 are: no scheme has room for more than 67,200 blocks.
// No Option: 257 is refused with the other checks, where document 01 has it.
fn symbols(mode: ModeB, blocks: usize, sum: usize) -> usize
    requires { (420 ≤ sum) × (sum ≤ 2100) }
    ensures { result ≡ min ((block_bits (number_of mode) * blocks + (sum - 1)) / sum) (suc most_symbols) }
{
    if 67200 < blocks {
        return MOST_SYMBOLS + 1;
    }
    let needed = (mode.block_bits() * blocks + (sum - 1)) / sum;
    needed.min(MOST_SYMBOLS + 1)
}

// What both directions need to know of a frame: its mode, the OFDM symbols needed, the blocks, and the bits of an OFDM symbol.
#[derive(Clone, Copy)]
pub struct Plan {
    pub mode: ModeB,
    pub symbols: usize,
    pub blocks: usize,
    pub sum: usize,
}

// A frame that passes the checks 1, 2, 5 and 6: its plan, and its scheme as one that was looked at.
#[derive(Clone, Copy)]
pub struct Frame<'a> {
    pub plan: Plan,
    pub scheme: Scheme<'a>,
}

// The checks 1, 2, 5 and 6.
pub fn checked<'a>(mode: u8, size: usize, scheme: &'a [u8]) -> Result<Frame<'a>, Refusal>
    ensures { MatchResult result (λ frame. Judged mode size scheme.now (Ok frame.plan) × (frame.scheme.entries.now ≡ scheme.now)) (λ why. Judged mode size scheme.now (Err why)) }
{
    let mode = ModeB::try_from(mode)?;
    if size == 0 {
        return Err(Refusal::WrongLength);
    }
    if size % mode.block_bytes() != 0 {
        return Err(Refusal::WrongLength);
    }
    let scheme = match Scheme::new(scheme) {
        Ok(scheme) => scheme,
        Err(place) => return Err(Refusal::BadScheme(place)),
    };
    let blocks = size / mode.block_bytes();
    let sum = sum(scheme);
    let symbols = symbols(mode, blocks, sum);
    if MOST_SYMBOLS < symbols {
        return Err(Refusal::TooManySymbols);
    }
    let plan = Plan {
        mode,
        symbols,
        blocks,
        sum,
    };
    Ok(Frame { plan, scheme })
}

// Their plan alone.
pub fn judged(mode: u8, size: usize, scheme: &[u8]) -> Result<Plan, Refusal>
    ensures { Judged mode size scheme.now result }
{
    let frame = checked(mode, size, scheme)?;
    Ok(frame.plan)
}
