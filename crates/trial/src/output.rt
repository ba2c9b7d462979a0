// Writing a response: how it begins, a count, a register, a byte, places, a list, the response to a send job. After an error a front of the bytes is
// written, and the clause `front` says so; the program writes no further.
ghost use Rattle.std.specs.Prelude.{◌≡◌, [], ◌∷◌, ◌++◌, ◌*◌, ◌≤◌, length, OnOk};
ghost use Rattle.std.specs.Io.KnownBytes.{Appends};
ghost use Rattle.streams.specs.Streams.{AppendsFront};
ghost use Rattle.trial.specs.Format.{little_endian, pairs, level_bytes, head_bytes, list_bytes, level_list_bytes};

use crate::PART;
use answers::{PLACES, Told};
use std::io;
use std::io::Write;

// How every response begins.
pub(crate) fn write_answer<W: Write>(to: &mut W, told: Told) -> io::Result<()>
    ensures ok { OnOk result (Appends (W.contents to.old) (W.contents to.new) (head_bytes told)) }
    ensures front { AppendsFront (W.contents to.old) (W.contents to.new) (head_bytes told) }
{
    streams::write_whole(to, &head(told.number, told.place))
}

// A count that an answer carries, in eight bytes. It, a register and a byte have a function each: one over all widths would need a trait for one line.
pub(crate) fn write_count<W: Write>(to: &mut W, n: usize) -> io::Result<()>
    ensures ok { OnOk result (Appends (W.contents to.old) (W.contents to.new) (little_endian 8 n)) }
    ensures front { AppendsFront (W.contents to.old) (W.contents to.new) (little_endian 8 n) }
{
    streams::write_whole(to, &n.to_le_bytes())
}

// A register, in two bytes.
pub(crate) fn write_register<W: Write>(to: &mut W, n: u16) -> io::Result<()>
    ensures ok { OnOk result (Appends (W.contents to.old) (W.contents to.new) (little_endian 2 n)) }
    ensures front { AppendsFront (W.contents to.old) (W.contents to.new) (little_endian 2 n) }
{
    streams::write_whole(to, &n.to_le_bytes())
}

pub(crate) fn write_byte<W: Write>(to: &mut W, n: u8) -> io::Result<()>
    ensures ok { OnOk result (Appends (W.contents to.old) (W.contents to.new) (n ∷ [])) }
    ensures front { AppendsFront (W.contents to.old) (W.contents to.new) (n ∷ []) }
{
    streams::write_whole(to, &[n])
}

// The places that an answer lists, in two bytes each.
pub(crate) fn write_places<W: Write>(to: &mut W, places: &[u16; PLACES]) -> io::Result<()>
    ensures ok { OnOk result (Appends (W.contents to.old) (W.contents to.new) (pairs places.now)) }
    ensures front { AppendsFront (W.contents to.old) (W.contents to.new) (pairs places.now) }
{
    let mut bytes = [0u8; 2 * PLACES];
    pack_places(places, &mut bytes);
    streams::write_whole(to, &bytes)
}

// A list of bytes, whole.
pub(crate) fn write_list<W: Write>(to: &mut W, elements: &[u8]) -> io::Result<()>
    ensures ok { OnOk result (Appends (W.contents to.old) (W.contents to.new) (list_bytes elements.now)) }
    ensures front { AppendsFront (W.contents to.old) (W.contents to.new) (list_bytes elements.now) }
{
    write_length(to, elements.len())?;
    write_bytes(to, elements)
}

// Bytes, with no count.
pub(crate) fn write_bytes<W: Write>(to: &mut W, elements: &[u8]) -> io::Result<()>
    ensures ok { OnOk result (Appends (W.contents to.old) (W.contents to.new) elements.now) }
    ensures front { AppendsFront (W.contents to.old) (W.contents to.new) elements.now }
{
    streams::write_whole(to, elements)
}

// A list of levels, whole.
fn write_levels<W: Write>(to: &mut W, levels: &[i16]) -> io::Result<()>
    ensures ok { OnOk result (Appends (W.contents to.old) (W.contents to.new) (level_list_bytes levels.now)) }
    ensures front { AppendsFront (W.contents to.old) (W.contents to.new) (level_list_bytes levels.now) }
{
    write_length(to, levels.len())?;
    write_parts(to, levels)
}

// The response to job 3, 5, 7 or 8: two lists of levels follow the answer.
pub(crate) fn write_sent<W: Write>(to: &mut W, told: Told, i: &[i16], q: &[i16]) -> io::Result<()>
    ensures ok { OnOk result (Appends (W.contents to.old) (W.contents to.new) (head_bytes told ++ level_list_bytes i.now ++ level_list_bytes q.now)) }
    ensures front { AppendsFront (W.contents to.old) (W.contents to.new) (head_bytes told ++ level_list_bytes i.now ++ level_list_bytes q.now) }
{
    write_answer(to, told)?;
    write_levels(to, i)?;
    write_levels(to, q)
}

// The count of a list, in four bytes.
pub(crate) fn write_length<W: Write>(to: &mut W, n: usize) -> io::Result<()>
    ensures ok { OnOk result (Appends (W.contents to.old) (W.contents to.new) (little_endian 4 n)) }
    ensures front { AppendsFront (W.contents to.old) (W.contents to.new) (little_endian 4 n) }
{
    streams::write_whole(to, &n.to_le_bytes()[..4])
}

// The number of an answer in a byte, its place in eight.
fn head(number: u8, place: usize) -> [u8; 9]
    ensures { result ≡ number ∷ little_endian 8 place }
{
    let mut bytes = [number; 9];
    bytes[1..].copy_from_slice(&place.to_le_bytes());
    bytes
}

// Levels, part by part.
fn write_parts<W: Write>(to: &mut W, levels: &[i16]) -> io::Result<()>
    ensures ok { OnOk result (Appends (W.contents to.old) (W.contents to.new) (level_bytes levels.now)) }
    ensures front { AppendsFront (W.contents to.old) (W.contents to.new) (level_bytes levels.now) }
{
    for part in levels.chunks(PART) {
        write_part(to, part)?;
    }
    Ok(())
}

// One part: two bytes for each level.
fn write_part<W: Write>(to: &mut W, levels: &[i16]) -> io::Result<()>
    requires { length levels.now ≤ 512 }
    ensures ok { OnOk result (Appends (W.contents to.old) (W.contents to.new) (level_bytes levels.now)) }
    ensures front { AppendsFront (W.contents to.old) (W.contents to.new) (level_bytes levels.now) }
{
    let mut bytes = [0u8; 2 * PART];
    let end = levels.len() * 2;
    pack(levels, &mut bytes[..end]);
    streams::write_whole(to, &bytes[..end])
}

// The bytes of places. Here and in `pack` by index: what an iterator over the written part leaves there no clause says.
fn pack_places(places: &[u16], bytes: &mut [u8])
    requires { length bytes.old ≡ length places.now * 2 }
    ensures { bytes.new ≡ pairs places.now }
{
    for i in 0..places.len() {
        bytes[i * 2..i * 2 + 2].copy_from_slice(&places[i].to_le_bytes());
    }
}

// The bytes of levels, in two's complement. Over the two types one function would need a trait, whose two impls are longer than this loop.
fn pack(levels: &[i16], bytes: &mut [u8])
    requires { length bytes.old ≡ length levels.now * 2 }
    ensures { bytes.new ≡ level_bytes levels.now }
{
    for i in 0..levels.len() {
        bytes[i * 2..i * 2 + 2].copy_from_slice(&levels[i].to_le_bytes());
    }
}
