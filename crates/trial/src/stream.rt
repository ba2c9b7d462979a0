// Jobs 9 and 16: a stream of Payload B, and one step from any state.
//
// A state is a list of 326 bytes: scheme 210, unfinished block 64 (eight words of 8), count 8, mode 1, frame length 8, OFDM symbols seen 8, scrambler's
// register 2, mended 8, worst 8, and the number (1) and the place (8) of the refusal that it holds, both 0 in a state that is open.
ghost use Rattle.std.specs.Prelude.{◌≤◌, OnOk};
ghost use Rattle.std.specs.Io.KnownBytes.{Appends};
ghost use Rattle.streams.specs.Streams.{LeavesRest, AppendsFront, Grows};
ghost use Rattle.answers.specs.Answers.{of_received_b};
ghost use Rattle.trial.specs.Courses.{Says};
ghost use Rattle.trial.specs.Format.{received_bytes, word_bytes};

use crate::stop::Stop;
use crate::{Rooms, input, output};
use answers::{MendedB, Refusal, Told};
use payload_b::stream;
use payload_b::stream::{Course, State};
use std::io;
use std::io::{Read, Write};
use symbols::grid::POINTS;

// The bytes of a state.
const STATE: usize = 326;

// The words of its unfinished block.
const WORDS: usize = 8;

// The most calls of a stream: as many as four bytes count.
const MOST_CALLS: usize = 4294967295;

// Reads the fields of job 9 up to its calls, mode, frame length, scheme, area and how many calls, opens the stream and makes them.
pub(crate) fn serve_stream<R: Read, W: Write>(
    from: &mut R,
    to: &mut W,
    rooms: &mut Rooms,
) -> Result<(), Stop>
    ensures rest { LeavesRest (R.remaining from.old) (R.remaining from.new) }
    ensures grows { Grows (W.contents to.old) (W.contents to.new) }
{
    let Rooms {
        first: area,
        second: scheme,
        i,
        q,
        ..
    } = rooms;
    let mode = input::read_byte(from)?;
    let size = input::read_size(from)?;
    let s = input::read_list(from, scheme)?;
    let n = input::read_list(from, area)?;
    let calls = input::read_count(from, MOST_CALLS)?;
    open(
        from,
        to,
        mode,
        size,
        &scheme[0..s],
        calls,
        i,
        q,
        &mut area[0..n],
    )
}

// Reads the fields of job 16, state, I, Q and area, and makes the step.
pub(crate) fn serve_step<R: Read, W: Write>(
    from: &mut R,
    to: &mut W,
    rooms: &mut Rooms,
) -> Result<(), Stop>
    ensures rest { LeavesRest (R.remaining from.old) (R.remaining from.new) }
    ensures grows { Grows (W.contents to.old) (W.contents to.new) }
{
    let Rooms {
        first: area,
        i,
        q,
        ..
    } = rooms;
    let mut bytes = [0u8; STATE];
    if input::read_list(from, &mut bytes)? < STATE {
        return Err(Stop::End);
    }
    let (m, l) = input::read_points(from, i, q)?;
    let n = input::read_list(from, area)?;
    step(to, &bytes, &i[0..m], &q[0..l], &mut area[0..n])?;
    Ok(())
}

// The opening of job 9, its response, and the calls.
fn open<R: Read, W: Write>(
    from: &mut R,
    to: &mut W,
    mode: u8,
    size: usize,
    scheme: &[u8],
    calls: usize,
    i: &mut [i16],
    q: &mut [i16],
    area: &mut [u8],
) -> Result<(), Stop>
    ensures rest { LeavesRest (R.remaining from.old) (R.remaining from.new) }
    ensures grows { Grows (W.contents to.old) (W.contents to.new) }
{
    let opened = receiver_b::open_b(mode, size, scheme);
    output::write_answer(to, stream::told(opened.course))?;
    call_all(from, to, calls, opened, i, q, area)
}

// The calls of job 9, each read, made and answered before the next.
fn call_all<R: Read, W: Write>(
    from: &mut R,
    to: &mut W,
    calls: usize,
    opened: State,
    i: &mut [i16],
    q: &mut [i16],
    area: &mut [u8],
) -> Result<(), Stop>
    ensures rest { LeavesRest (R.remaining from.old) (R.remaining from.new) }
    ensures grows { Grows (W.contents to.old) (W.contents to.new) }
{
    let mut state = opened;
    for _ in 0..calls {
        call(from, to, &mut state, i, q, area)?;
    }
    Ok(())
}

// The next call of job 9, and its response.
fn call<R: Read, W: Write>(
    from: &mut R,
    to: &mut W,
    state: &mut State,
    i: &mut [i16],
    q: &mut [i16],
    area: &mut [u8],
) -> Result<(), Stop>
    ensures rest { LeavesRest (R.remaining from.old) (R.remaining from.new) }
    ensures grows { Grows (W.contents to.old) (W.contents to.new) }
{
    let (m, l) = input::read_points(from, i, q)?;
    answer(to, state, &i[0..m], &q[0..l], area)?;
    Ok(())
}

// A step of job 9, and its response.
fn answer<W: Write>(
    to: &mut W,
    state: &mut State,
    i: &[i16],
    q: &[i16],
    area: &mut [u8],
) -> io::Result<()>
    ensures grows { Grows (W.contents to.old) (W.contents to.new) }
{
    let stepped = receiver_b::step_b(*state, i, q, area);
    *state = stepped.state;
    write_received(to, stepped.answer)?;
    output::write_list(to, area)
}

// The step of job 16, and its response. Where number and place are those of no refusal, it is answered as a state that no stream has.
fn step<W: Write>(
    to: &mut W,
    bytes: &[u8; STATE],
    i: &[i16],
    q: &[i16],
    area: &mut [u8],
) -> io::Result<()>
    ensures grows { Grows (W.contents to.old) (W.contents to.new) }
{
    match course_of(bytes[317], number_at(318, bytes)) {
        Some(course) => {
            let stepped = receiver_b::step_b(state_of(bytes, course), i, q, area);
            write_received(to, stepped.answer)?;
            write_state(to, stepped.state)?;
        }
        None => {
            write_received(to, Err(Refusal::Forged))?;
            output::write_list(to, bytes)?;
        }
    }
    output::write_list(to, area)
}

// How every response to a step begins.
fn write_received<W: Write>(to: &mut W, answer: Result<MendedB, Refusal>) -> io::Result<()>
    ensures ok { OnOk result (Appends (W.contents to.old) (W.contents to.new) (received_bytes (of_received_b answer))) }
    ensures front { AppendsFront (W.contents to.old) (W.contents to.new) (received_bytes (of_received_b answer)) }
{
    let told = Told::from(answer);
    output::write_answer(to, told)?;
    output::write_count(to, told.mended)?;
    output::write_count(to, told.worst)
}

// The course that tells this number and place, if there is one.
fn course_of(number: u8, place: usize) -> Option<Course>
    ensures { Says number place result }
{
    let course = stream::course_of(u64::from(number), place);
    let told = stream::told(course);
    if told.number == number && told.place == place {
        Some(course)
    } else {
        None
    }
}

// The state of these bytes, but for number and place.
fn state_of(bytes: &[u8; STATE], course: Course) -> State {
    State {
        scheme: scheme_of(bytes),
        block: block_of(bytes),
        count: number_at(274, bytes),
        mode: bytes[282],
        size: number_at(283, bytes),
        seen: number_at(291, bytes),
        register: u16::from_le_bytes([bytes[299], bytes[300]]),
        mended: number_at(301, bytes),
        worst: number_at(309, bytes),
        course,
    }
}

// The scheme, the first of a state's bytes.
fn scheme_of(bytes: &[u8; STATE]) -> [u8; POINTS] {
    let mut scheme = [0u8; POINTS];
    scheme.copy_from_slice(&bytes[..POINTS]);
    scheme
}

// The unfinished block, behind the scheme.
fn block_of(bytes: &[u8; STATE]) -> [u64; WORDS] {
    let mut block = [0u64; WORDS];
    for w in 0..WORDS {
        block[w] = number_at(POINTS + w * 8, bytes) as u64;
    }
    block
}

// The number in the eight bytes from at on.
fn number_at(at: usize, bytes: &[u8; STATE]) -> usize
    requires { at ≤ 318 }
{
    let mut word = [0u8; 8];
    word.copy_from_slice(&bytes[at..at + 8]);
    usize::from_le_bytes(word)
}

// A state, whole.
fn write_state<W: Write>(to: &mut W, s: State) -> io::Result<()>
    ensures grows { Grows (W.contents to.old) (W.contents to.new) }
{
    let scheme = s.scheme;
    let block = s.block;
    output::write_length(to, STATE)?;
    output::write_bytes(to, &scheme)?;
    write_block(to, &block)?;
    output::write_count(to, s.count)?;
    output::write_byte(to, s.mode)?;
    output::write_count(to, s.size)?;
    output::write_count(to, s.seen)?;
    output::write_register(to, s.register)?;
    output::write_count(to, s.mended)?;
    output::write_count(to, s.worst)?;
    output::write_answer(to, stream::told(s.course))
}

// The words of a block, in eight bytes each.
fn write_block<W: Write>(to: &mut W, block: &[u64; WORDS]) -> io::Result<()>
    ensures ok { OnOk result (Appends (W.contents to.old) (W.contents to.new) (word_bytes block.now)) }
    ensures front { AppendsFront (W.contents to.old) (W.contents to.new) (word_bytes block.now) }
{
    for word in block {
        output::write_count(to, *word as usize)?;
    }
    Ok(())
}
