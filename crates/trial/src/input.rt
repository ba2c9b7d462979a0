// Reading a request: a byte, a frame length, a list. A count, a list of bytes and a part of a list of levels ask for all their bytes at once, and none
// is read ahead of the request.
//
// Whatever comes of it, what is left of the input is its rest. An error leaves any elements in the lent room; the program reads no further.
ghost use Rattle.std.specs.Prelude.{◌≡◌, [], ◌∷◌, ◌*◌, ◌≤◌, length, IfOk, OnOk, IsErrOf};
ghost use Rattle.std.specs.Io.KnownBytes.{Consumes, IsAtEnd};
ghost use Rattle.trial.specs.Format.{levels_in};
ghost use Rattle.streams.specs.Streams.{LeavesRest};

use crate::PART;
use crate::stop::Stop;
use std::io::Read;

// The next bytes, as many as there is room for.
fn fill<R: Read>(from: &mut R, room: &mut [u8]) -> Result<(), Stop>
    ensures ok { OnOk result (Consumes (R.remaining from.old) (R.remaining from.new) room.new) }
    ensures end { IsErrOf result Stop.End → IsAtEnd (R.remaining from.new) }
    ensures rest { LeavesRest (R.remaining from.old) (R.remaining from.new) }
{
    if streams::read_full(from, room)? < room.len() {
        return Err(Stop::End);
    }
    Ok(())
}

// A byte.
pub(crate) fn read_byte<R: Read>(from: &mut R) -> Result<u8, Stop>
    ensures ok { IfOk result (λ b. Consumes (R.remaining from.old) (R.remaining from.new) (b ∷ [])) }
    ensures rest { LeavesRest (R.remaining from.old) (R.remaining from.new) }
{
    let mut one = [0u8; 1];
    fill(from, &mut one)?;
    Ok(one[0])
}

// A frame length, in eight bytes.
pub(crate) fn read_size<R: Read>(from: &mut R) -> Result<usize, Stop>
    ensures { LeavesRest (R.remaining from.old) (R.remaining from.new) }
{
    let mut bytes = [0u8; 8];
    fill(from, &mut bytes)?;
    Ok(usize::from_le_bytes(bytes))
}

// A list of bytes, into the first elements of room: how many.
pub(crate) fn read_list<R: Read>(from: &mut R, room: &mut [u8]) -> Result<usize, Stop>
    ensures ok { IfOk result (λ n. n ≤ length room.old) }
    ensures rest { LeavesRest (R.remaining from.old) (R.remaining from.new) }
{
    let n = read_count(from, room.len())?;
    fill(from, &mut room[0..n])?;
    Ok(n)
}

// The lists I and Q, each into the first elements of its room: how many of each.
pub(crate) fn read_points<R: Read>(
    from: &mut R,
    i: &mut [i16],
    q: &mut [i16],
) -> Result<(usize, usize), Stop>
    ensures ok { IfOk result (λ n. (n.0 ≤ length i.old) × (n.1 ≤ length q.old)) }
    ensures rest { LeavesRest (R.remaining from.old) (R.remaining from.new) }
{
    let of_i = read_levels(from, i)?;
    let of_q = read_levels(from, q)?;
    Ok((of_i, of_q))
}

// A list of levels, into the first elements of room: how many.
fn read_levels<R: Read>(from: &mut R, room: &mut [i16]) -> Result<usize, Stop>
    ensures ok { IfOk result (λ n. n ≤ length room.old) }
    ensures rest { LeavesRest (R.remaining from.old) (R.remaining from.new) }
{
    let n = read_count(from, room.len())?;
    read_parts(from, &mut room[0..n])?;
    Ok(n)
}

// The count of a list, of which there is room for most elements. A list of more is no request.
pub(crate) fn read_count<R: Read>(from: &mut R, most: usize) -> Result<usize, Stop>
    ensures ok { IfOk result (λ n. n ≤ most) }
    ensures rest { LeavesRest (R.remaining from.old) (R.remaining from.new) }
{
    let mut bytes = [0u8; 4];
    fill(from, &mut bytes)?;
    let n = u32::from_le_bytes(bytes) as usize;
    if n <= most { Ok(n) } else { Err(Stop::End) }
}

// Levels, part by part.
fn read_parts<R: Read>(from: &mut R, levels: &mut [i16]) -> Result<(), Stop>
    ensures { LeavesRest (R.remaining from.old) (R.remaining from.new) }
{
    for part in levels.chunks_mut(PART) {
        read_part(from, part)?;
    }
    Ok(())
}

// One part: two bytes for each level.
fn read_part<R: Read>(from: &mut R, levels: &mut [i16]) -> Result<(), Stop>
    requires { length levels.old ≤ 512 }
    ensures { LeavesRest (R.remaining from.old) (R.remaining from.new) }
{
    let mut bytes = [0u8; 2 * PART];
    let end = levels.len() * 2;
    fill(from, &mut bytes[..end])?;
    unpack(&bytes, levels);
    Ok(())
}

// The levels that the first bytes stand for.
fn unpack(bytes: &[u8], levels: &mut [i16])
    requires { length levels.old * 2 ≤ length bytes.now }
    ensures { levels.new ≡ levels_in (length levels.old) bytes.now }
{
    for i in 0..levels.len() {
        levels[i] = i16::from_le_bytes([bytes[i * 2], bytes[i * 2 + 1]]);
    }
}
