// The bits of Payload B on their way to a frame: OFDM symbol by OFDM symbol they stand in a run behind the unfinished block's, and each full block is done.
ghost use Rattle.std.specs.Prelude.{◌≡◌, ◌≢◌, [], ◌-◌, drop};
ghost use Rattle.packed.specs.Packed.{bits_from, bits512};
ghost use Rattle.symbols.specs.Grid.{symbol_points};
ghost use Rattle.symbols.specs.Grids.{points_from, received};
ghost use Rattle.symbols.specs.Schemes.{repeated};
ghost use Rattle.symbols.specs.ByScheme.{read_by};
ghost use Rattle.payload_b.specs.CodedB.{block_bytes, block_bits};
ghost use Rattle.payload_b.specs.ModesB.{number_of};
ghost use Rattle.receiver_b.specs.Steps.{TakesIn, Ready, Wanted, wants_block, Full, Tries, Clears, TakesBlocks, Ends, Leaves, began};

use crate::block;
use packed::RUN;
use payload::scrambler;
use payload_b::mode::ModeB;
use payload_b::plan::Plan;
use symbols::grid::SUB_CARRIERS;
use symbols::scheme::Scheme;

// How many bits wait for the next block, the blocks done, the scrambler's register, the bits mended, in all and in the worst block.
#[derive(Clone, Copy)]
pub struct Tally {
    pub count: usize,
    pub done: usize,
    pub register: u16,
    pub mended: usize,
    pub worst: usize,
}

// What is on its way: the unfinished block, its bits at the front and zeros behind them, and the tally: an array and a count, as document 01 has it.
#[derive(Clone, Copy)]
pub struct Stream {
    pub block: [u64; 8],
    pub tally: Tally,
}

// Nothing taken in yet.
pub(crate) fn start() -> Stream
    ensures { result ≡ began }
{
    let tally = Tally {
        count: 0,
        done: 0,
        register: scrambler::START,
        mended: 0,
        worst: 0,
    };
    Stream {
        block: [0; 8],
        tally,
    }
}

// Whether a full block waits, one of the frame's.
fn is_full(blocks: usize, size: usize, s: Tally) -> bool
    ensures { result ≡ wants_block blocks size s }
{
    s.done < blocks && size <= s.count
}

// A full block is mended and its bytes are written; it is the first of the bits that wait. None where it cannot be mended.
fn close(mode: ModeB, from: Tally, block: [u64; 8], area: &mut [u8]) -> Option<Tally>
    requires { Full (number_of mode) area.old from }
    ensures { Tries (number_of mode) area.old (bits512 block) from area.new result }
{
    let step = mode.block_bytes();
    let at = step * from.done;
    let finished = block::finish(mode, block, from.register, &mut area[at..at + step])?;
    Some(Tally {
        count: from.count - mode.block_bits(),
        done: from.done + 1,
        register: finished.register,
        mended: from.mended + finished.count,
        worst: from.worst.max(finished.count),
    })
}

// The bits of a run that wait, block after block; or the number of the first that cannot be mended.
fn take_blocks(plan: Plan, from: Tally, run: &[u64; RUN], area: &mut [u8]) -> Result<Tally, usize>
    requires { (number_of plan.mode ≢ 0) × Wanted (number_of plan.mode) plan.blocks from area.old }
    ensures { TakesBlocks (number_of plan.mode) plan.blocks area.old (bits_from 41 0 run.now) from area.new result }
{
    let size = plan.mode.block_bits();
    let mut tally = from;
    while is_full(plan.blocks, size, tally) {
        let at = from.count - tally.count;
        let Some(next) = close(plan.mode, tally, packed::window(run, at), area) else {
            return Err(tally.done);
        };
        tally = next;
    }
    Ok(tally)
}

// The same uncoded: each byte is a block, and all that wait are written at once.
fn take_bytes(blocks: usize, from: Tally, run: &[u64; RUN], area: &mut [u8]) -> Tally
    requires { Wanted 0 blocks from area.old }
    ensures { Clears 0 blocks area.old (bits_from 41 0 run.now) from area.new result }
{
    let m = (from.count / 8).min(blocks - from.done);
    let at = from.done;
    let register = scrambler::write_bytes(from.register, run, &mut area[at..at + m]);
    Tally {
        count: from.count - 8 * m,
        done: at + m,
        register,
        ..from
    }
}

// The whole blocks of a run that wait. What these functions need alike, `Wanted`, is said of plan, tally and the area that is written: no one value has all.
fn take_whole(plan: Plan, from: Tally, run: &[u64; RUN], area: &mut [u8]) -> Result<Tally, usize>
    requires { Wanted (number_of plan.mode) plan.blocks from area.old }
    ensures { TakesBlocks (number_of plan.mode) plan.blocks area.old (bits_from 41 0 run.now) from area.new result }
{
    match plan.mode {
        ModeB::Uncoded => Ok(take_bytes(plan.blocks, from, run, area)),
        _ => take_blocks(plan, from, run, area),
    }
}

// What is left of a run goes into the unfinished block: nothing, behind the last block.
fn left(blocks: usize, total: usize, run: &[u64; RUN], s: Tally) -> Stream
    requires { Ends blocks total s }
    ensures { Leaves blocks (drop (total - s.count) (bits_from 41 0 run.now)) s (bits512 result.block) result.tally }
{
    if s.done < blocks {
        let block = packed::first(&packed::window(run, total - s.count), s.count);
        return Stream { block, tally: s };
    }
    Stream {
        block: [0; 8],
        tally: Tally { count: 0, ..s },
    }
}

// The first bits of a run, as many as wait, are taken in.
fn take_run(plan: Plan, from: Tally, run: &[u64; RUN], area: &mut [u8]) -> Result<Stream, usize>
    requires { Wanted (number_of plan.mode) plan.blocks from area.old }
    ensures { TakesIn (number_of plan.mode) plan.blocks [] area.old (bits_from 41 0 run.now) from area.new result }
{
    let tally = take_whole(plan, from, run, area)?;
    Ok(left(plan.blocks, from.count, run, tally))
}

// Takes one OFDM symbol in; behind the last block its bits are not looked at. Or the number of the block that cannot be mended.
pub(crate) fn take_symbol(
    scheme: Scheme,
    plan: Plan,
    from: Stream,
    i: &[i16],
    q: &[i16],
    area: &mut [u8],
) -> Result<Stream, usize>
    requires { Ready scheme.entries.now plan from 1 i.now q.now area.old }
    ensures { TakesIn (number_of plan.mode) plan.blocks (read_by scheme.entry.entries.now (points_from i.now q.now 1 symbol_points)) area.old (bits512 from.block) from.tally area.new result }
{
    let s = from.tally;
    if plan.blocks <= s.done {
        return Ok(from);
    }
    let run = scheme.read(i, q, from.block, s.count);
    let more = Tally {
        count: s.count + plan.sum,
        ..s
    };
    take_run(plan, more, &run, area)
}

// Takes the OFDM symbols in, as many as the plan says; or the number of the first block that cannot be mended.
pub(crate) fn take_symbols(
    scheme: Scheme,
    plan: Plan,
    from: Stream,
    i: &[i16],
    q: &[i16],
    area: &mut [u8],
) -> Result<Stream, usize>
    requires { Ready scheme.entries.now plan from plan.symbols i.now q.now area.old }
    ensures { TakesIn (number_of plan.mode) plan.blocks (read_by (repeated plan.symbols scheme.entry.entries.now) (received plan.symbols i.now q.now)) area.old (bits512 from.block) from.tally area.new result }
{
    let mut state = from;
    // By index: the bits of a part are told by its place in the lists.
    for s in 0..plan.symbols {
        let at = SUB_CARRIERS * s;
        let end = at + SUB_CARRIERS;
        state = take_symbol(scheme, plan, state, &i[at..end], &q[at..end], area)?;
    }
    Ok(state)
}
