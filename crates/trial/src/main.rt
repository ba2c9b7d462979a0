// The trial program: how anybody else's program can drive ours. It reads requests from standard input, makes the calls and writes the
// responses to standard output, and has no rule of its own.
//
// Integers are little-endian. A list is a count of 4 bytes and its elements: a byte each, or two for each level of I and Q, in two's
// complement. A request is a job byte and the job's fields, with the lent lists as they stand before the call. A response is the answer's
// number (1 byte), its place (8 bytes), the counts that the job has (8 bytes each), of jobs 2 and 4 the places mended (16 for each word, 2 bytes each), and
// each lent list, whole, as it stands after the call.
//
//   job            fields                        counts                      places           lent lists
//   1 encode       code (1 byte), word, out                                                   out
//   2 decode       code (1 byte), word, out      mended                      16               out
//   3 send A       mode (1 byte), frame, I, Q                                                 I, Q
//   4 receive A    mode (1 byte), I, Q, area     mended, protected, worst    16 of each half  area
//   5 send B       mode (1 byte), frame, scheme, I, Q                                         I, Q
//   6 receive B    mode (1 byte), frame length (8 bytes), scheme, I, Q, area
//                                                mended, worst                                area
//   7 decide A     mode (1 byte), I, Q, out I, out Q                                          out I, out Q
//   8 decide B     mode (1 byte), frame length (8 bytes), scheme, I, Q, out I, out Q          out I, out Q
//   9 stream B     mode (1 byte), frame length (8 bytes), scheme, area, count of calls (4 bytes), and for each call I and Q
//   16 step B      state, I, Q, area             mended, worst                                state, area
//
// Job 9 opens a stream and makes its calls, one OFDM symbol each, all with one area, and is answered as it is read: number and place of the
// opening, then of each call number, place, mended, worst and the area after it. Job 16 makes one step from any state, a list of 326 bytes
// (stream.rt).
//
// Another job byte, a state of another length, a list too long for its room and a request that is cut end the program after the responses so far. So does
// a read or a write that fails, with that error.
#![tactic(auto)]

ghost use Rattle.streams.specs.Streams.{LeavesRest, Grows};

use std::io;
use std::io::{Read, Write};
use stop::Stop;
use word::Job;

mod decide;
mod input;
mod jobs_a;
mod jobs_b;
mod output;
mod stop;
mod stream;
mod word;

// The most elements of a list of bytes.
const MOST_BYTES: usize = 67300;

// The most elements of a list of levels.
const MOST_LEVELS: usize = 65600;

// Lists of levels go in and out part by part, so that their bytes need little room: the most levels of a part.
const PART: usize = 512;

// What the lists of a request are read into: each job takes those that it has lists for, and names them. They stand on the stack, since an allocation that
// fails would be one more way for the program to end.
#[derive(Drop)]
struct Rooms {
    first: [u8; MOST_BYTES],
    second: [u8; MOST_BYTES],
    i: [i16; MOST_LEVELS],
    q: [i16; MOST_LEVELS],
    oi: [i16; MOST_LEVELS],
    oq: [i16; MOST_LEVELS],
}

// Reads a request and writes its response.
fn serve<R: Read, W: Write>(from: &mut R, to: &mut W, rooms: &mut Rooms) -> Result<(), Stop>
    ensures rest { LeavesRest (R.remaining from.old) (R.remaining from.new) }
    ensures grows { Grows (W.contents to.old) (W.contents to.new) }
{
    // A job is named by its byte here and nowhere else: an enum of jobs would have the same arms a second time.
    match input::read_byte(from)? {
        1 => word::serve(from, to, Job::Encode, rooms),
        2 => word::serve(from, to, Job::Decode, rooms),
        3 => jobs_a::serve_send(from, to, rooms),
        4 => jobs_a::serve_receive(from, to, rooms),
        5 => jobs_b::serve_send(from, to, rooms),
        6 => jobs_b::serve_receive(from, to, rooms),
        7 => decide::serve_a(from, to, rooms),
        8 => decide::serve_b(from, to, rooms),
        9 => stream::serve_stream(from, to, rooms),
        16 => stream::serve_step(from, to, rooms),
        _ => Err(Stop::End),
    }
}

// Serves one request after another, to the end of the input. A proved loop has to end, and nothing says that the input does: the turns are as many as
// no run uses up.
fn serve_all<R: Read, W: Write>(from: &mut R, to: &mut W, rooms: &mut Rooms) -> io::Result<()>
    ensures rest { LeavesRest (R.remaining from.old) (R.remaining from.new) }
    ensures grows { Grows (W.contents to.old) (W.contents to.new) }
{
    for _ in 0..u64::MAX {
        match serve(from, to, rooms) {
            Ok(()) => {}
            Err(Stop::End) => break,
            Err(Stop::Failed(error)) => return Err(error),
        }
    }
    Ok(())
}

fn main(rt: HostRuntime) -> io::Result<()> {
    let mut rooms = Rooms {
        first: [0; MOST_BYTES],
        second: [0; MOST_BYTES],
        i: [0; MOST_LEVELS],
        q: [0; MOST_LEVELS],
        oi: [0; MOST_LEVELS],
        oq: [0; MOST_LEVELS],
    };
    serve_all(&mut rt.reader(), &mut io::writer(&rt), &mut rooms)
}
