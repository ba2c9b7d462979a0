// Jobs 7 and 8: decide the points of Payload A and of Payload B.
ghost use Rattle.streams.specs.Streams.{LeavesRest, Grows};

use crate::stop::Stop;
use crate::{Rooms, input, output};
use answers::Told;
use std::io;
use std::io::{Read, Write};

// Reads the fields of job 7, mode, I, Q, out I and out Q, and makes the call.
pub(crate) fn serve_a<R: Read, W: Write>(
    from: &mut R,
    to: &mut W,
    rooms: &mut Rooms,
) -> Result<(), Stop>
    ensures rest { LeavesRest (R.remaining from.old) (R.remaining from.new) }
    ensures grows { Grows (W.contents to.old) (W.contents to.new) }
{
    let Rooms { i, q, oi, oq, .. } = rooms;
    let mode = input::read_byte(from)?;
    let (m, l) = input::read_points(from, i, q)?;
    let (n, o) = input::read_points(from, oi, oq)?;
    decide_a(to, mode, &i[0..m], &q[0..l], &mut oi[0..n], &mut oq[0..o])?;
    Ok(())
}

// Reads the fields of job 8, mode, frame length, scheme, I, Q, out I and out Q, and makes the call.
pub(crate) fn serve_b<R: Read, W: Write>(
    from: &mut R,
    to: &mut W,
    rooms: &mut Rooms,
) -> Result<(), Stop>
    ensures rest { LeavesRest (R.remaining from.old) (R.remaining from.new) }
    ensures grows { Grows (W.contents to.old) (W.contents to.new) }
{
    let Rooms {
        first: scheme,
        i,
        q,
        oi,
        oq,
        ..
    } = rooms;
    let mode = input::read_byte(from)?;
    let size = input::read_size(from)?;
    let s = input::read_list(from, scheme)?;
    serve_grid(from, to, mode, size, &scheme[0..s], i, q, oi, oq)
}

// Its last four: I, Q, out I and out Q.
fn serve_grid<R: Read, W: Write>(
    from: &mut R,
    to: &mut W,
    mode: u8,
    size: usize,
    scheme: &[u8],
    i: &mut [i16],
    q: &mut [i16],
    oi: &mut [i16],
    oq: &mut [i16],
) -> Result<(), Stop>
    ensures rest { LeavesRest (R.remaining from.old) (R.remaining from.new) }
    ensures grows { Grows (W.contents to.old) (W.contents to.new) }
{
    let (m, l) = input::read_points(from, i, q)?;
    let (n, o) = input::read_points(from, oi, oq)?;
    decide_b(
        to,
        mode,
        size,
        scheme,
        &i[0..m],
        &q[0..l],
        &mut oi[0..n],
        &mut oq[0..o],
    )?;
    Ok(())
}

// The call of job 7, and its response.
fn decide_a<W: Write>(
    to: &mut W,
    mode: u8,
    i: &[i16],
    q: &[i16],
    oi: &mut [i16],
    oq: &mut [i16],
) -> io::Result<()>
    ensures grows { Grows (W.contents to.old) (W.contents to.new) }
{
    let told = Told::from(decider::decide_a(mode, i, q, oi, oq));
    output::write_sent(to, told, oi, oq)
}

// The call of job 8, and its response.
fn decide_b<W: Write>(
    to: &mut W,
    mode: u8,
    size: usize,
    scheme: &[u8],
    i: &[i16],
    q: &[i16],
    oi: &mut [i16],
    oq: &mut [i16],
) -> io::Result<()>
    ensures grows { Grows (W.contents to.old) (W.contents to.new) }
{
    let told = Told::from(decider::decide_b(mode, size, scheme, i, q, oi, oq));
    output::write_sent(to, told, oi, oq)
}
