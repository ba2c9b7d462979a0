// Jobs 5 and 6: send and receive Payload B.
ghost use Rattle.streams.specs.Streams.{LeavesRest, Grows};

use crate::stop::Stop;
use crate::{Rooms, input, output};
use answers::Told;
use std::io;
use std::io::{Read, Write};

// Reads the fields of job 5, mode, frame, scheme, I and Q, and makes the call.
pub(crate) fn serve_send<R: Read, W: Write>(
    from: &mut R,
    to: &mut W,
    rooms: &mut Rooms,
) -> Result<(), Stop>
    ensures rest { LeavesRest (R.remaining from.old) (R.remaining from.new) }
    ensures grows { Grows (W.contents to.old) (W.contents to.new) }
{
    let Rooms {
        first: frame,
        second: scheme,
        i,
        q,
        ..
    } = rooms;
    let mode = input::read_byte(from)?;
    let n = input::read_list(from, frame)?;
    let s = input::read_list(from, scheme)?;
    let (m, l) = input::read_points(from, i, q)?;
    send(
        to,
        mode,
        &frame[0..n],
        &scheme[0..s],
        &mut i[0..m],
        &mut q[0..l],
    )?;
    Ok(())
}

// Reads the fields of job 6, mode, frame length, scheme, I, Q and area, and makes the call.
pub(crate) fn serve_receive<R: Read, W: Write>(
    from: &mut R,
    to: &mut W,
    rooms: &mut Rooms,
) -> Result<(), Stop>
    ensures rest { LeavesRest (R.remaining from.old) (R.remaining from.new) }
    ensures grows { Grows (W.contents to.old) (W.contents to.new) }
{
    let Rooms {
        first: area,
        second: scheme,
        i,
        q,
        ..
    } = rooms;
    let mode = input::read_byte(from)?;
    let size = input::read_size(from)?;
    let s = input::read_list(from, scheme)?;
    let (m, l) = input::read_points(from, i, q)?;
    let n = input::read_list(from, area)?;
    receive(
        to,
        mode,
        size,
        &scheme[0..s],
        &i[0..m],
        &q[0..l],
        &mut area[0..n],
    )?;
    Ok(())
}

// The call of job 5, and its response.
fn send<W: Write>(
    to: &mut W,
    mode: u8,
    frame: &[u8],
    scheme: &[u8],
    i: &mut [i16],
    q: &mut [i16],
) -> io::Result<()>
    ensures grows { Grows (W.contents to.old) (W.contents to.new) }
{
    let told = Told::from(sender_b::send_b(mode, frame, scheme, i, q));
    output::write_sent(to, told, i, q)
}

// The call of job 6, and its response.
fn receive<W: Write>(
    to: &mut W,
    mode: u8,
    size: usize,
    scheme: &[u8],
    i: &[i16],
    q: &[i16],
    area: &mut [u8],
) -> io::Result<()>
    ensures grows { Grows (W.contents to.old) (W.contents to.new) }
{
    let told = Told::from(receiver_b::receive_b(mode, size, scheme, i, q, area));
    output::write_answer(to, told)?;
    output::write_count(to, told.mended)?;
    output::write_count(to, told.worst)?;
    output::write_list(to, area)
}
