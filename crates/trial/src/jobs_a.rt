// Jobs 3 and 4: send and receive Payload A.
ghost use Rattle.streams.specs.Streams.{LeavesRest, Grows};

use crate::stop::Stop;
use crate::{Rooms, input, output};
use answers::Told;
use std::io;
use std::io::{Read, Write};

// Reads the fields of job 3, mode, frame, I and Q, and makes the call.
pub(crate) fn serve_send<R: Read, W: Write>(
    from: &mut R,
    to: &mut W,
    rooms: &mut Rooms,
) -> Result<(), Stop>
    ensures rest { LeavesRest (R.remaining from.old) (R.remaining from.new) }
    ensures grows { Grows (W.contents to.old) (W.contents to.new) }
{
    let Rooms {
        first: frame,
        i,
        q,
        ..
    } = rooms;
    let mode = input::read_byte(from)?;
    let n = input::read_list(from, frame)?;
    let (m, l) = input::read_points(from, i, q)?;
    send(to, mode, &frame[0..n], &mut i[0..m], &mut q[0..l])?;
    Ok(())
}

// Reads the fields of job 4, mode, I, Q and area, and makes the call.
pub(crate) fn serve_receive<R: Read, W: Write>(
    from: &mut R,
    to: &mut W,
    rooms: &mut Rooms,
) -> Result<(), Stop>
    ensures rest { LeavesRest (R.remaining from.old) (R.remaining from.new) }
    ensures grows { Grows (W.contents to.old) (W.contents to.new) }
{
    let Rooms {
        first: area,
        i,
        q,
        ..
    } = rooms;
    let mode = input::read_byte(from)?;
    let (m, l) = input::read_points(from, i, q)?;
    let n = input::read_list(from, area)?;
    receive(to, mode, &i[0..m], &q[0..l], &mut area[0..n])?;
    Ok(())
}

// The call of job 3, and its response.
fn send<W: Write>(
    to: &mut W,
    mode: u8,
    frame: &[u8],
    i: &mut [i16],
    q: &mut [i16],
) -> io::Result<()>
    ensures grows { Grows (W.contents to.old) (W.contents to.new) }
{
    let told = Told::from(sender_a::send_a(mode, frame, i, q));
    output::write_sent(to, told, i, q)
}

// The call of job 4, and its response.
fn receive<W: Write>(to: &mut W, mode: u8, i: &[i16], q: &[i16], area: &mut [u8]) -> io::Result<()>
    ensures grows { Grows (W.contents to.old) (W.contents to.new) }
{
    let received = receiver_a::receive_a(mode, i, q, area);
    let told = Told::from(received.answer);
    let first = received.first;
    let second = received.second;
    output::write_answer(to, told)?;
    output::write_count(to, told.mended)?;
    output::write_count(to, told.protected)?;
    output::write_count(to, told.worst)?;
    output::write_places(to, &first)?;
    output::write_places(to, &second)?;
    output::write_list(to, area)
}
