// Jobs 1 and 2: encode and decode one word.
ghost use Rattle.streams.specs.Streams.{LeavesRest, Grows};

use crate::stop::Stop;
use crate::{Rooms, input, output};
use answers::Told;
use std::io;
use std::io::{Read, Write};

// What to do with a word.
#[derive(Clone, Copy)]
pub(crate) enum Job {
    Encode,
    Decode,
}

// Reads the fields of both jobs, code, word and out, and makes the call.
pub(crate) fn serve<R: Read, W: Write>(
    from: &mut R,
    to: &mut W,
    job: Job,
    rooms: &mut Rooms,
) -> Result<(), Stop>
    ensures rest { LeavesRest (R.remaining from.old) (R.remaining from.new) }
    ensures grows { Grows (W.contents to.old) (W.contents to.new) }
{
    let Rooms {
        first: word,
        second: out,
        ..
    } = rooms;
    let code = input::read_byte(from)?;
    let n = input::read_list(from, word)?;
    let m = input::read_list(from, out)?;
    match job {
        Job::Encode => encode(to, code, &word[0..n], &mut out[0..m])?,
        Job::Decode => decode(to, code, &word[0..n], &mut out[0..m])?,
    }
    Ok(())
}

fn encode<W: Write>(to: &mut W, code: u8, word: &[u8], out: &mut [u8]) -> io::Result<()>
    ensures grows { Grows (W.contents to.old) (W.contents to.new) }
{
    let told = Told::from(encoder::encode(code, word, out));
    output::write_answer(to, told)?;
    output::write_list(to, out)
}

fn decode<W: Write>(to: &mut W, code: u8, word: &[u8], out: &mut [u8]) -> io::Result<()>
    ensures grows { Grows (W.contents to.old) (W.contents to.new) }
{
    let decoded = decoder::decode(code, word, out);
    let told = Told::from(decoded.answer);
    let places = decoded.places;
    output::write_answer(to, told)?;
    output::write_count(to, told.mended)?;
    output::write_places(to, &places)?;
    output::write_list(to, out)
}
