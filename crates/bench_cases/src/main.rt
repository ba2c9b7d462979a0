// What the bench program writes for each file that an argument names, one behind the other. The files of data/ are named by their lengths; two of
// them say which bytes they hold.
#![tactic(auto)]

ghost use Rattle.streams.specs.Streams.{LeavesRest, Grows};

use std::env::FillError;
use std::fs::File;
use std::io::{Read, Write};
use std::rt::{Env, Files};
use std::{io, str};

// What the bench program reads of its input, at most.
const MOST: usize = 95;

// The most bytes of an argument: as many as a path has.
const PATH: usize = 4096;

// Writes the report on what a file holds.
fn show<R: Read, W: Write>(from: &mut R, to: &mut W) -> io::Result<()>
    ensures rest { LeavesRest (R.remaining from.old) (R.remaining from.new) }
    ensures grows { Grows (W.contents to.old) (W.contents to.new) }
{
    let mut input = [0u8; MOST];
    let n = streams::read_full(from, &mut input)?;
    let text = report::report(&input[..n]);
    streams::write_whole(to, &text.bytes[..text.count])
}

// Writes the report on the file that an argument names. One that cannot be opened is named on standard error, and the next one follows.
fn show_argument(rt: &(impl Files + Print + Eprint), path: &str) -> io::Result<()> {
    match File::open(rt, path) {
        Ok(mut file) => show(&mut file, &mut io::writer(rt)),
        Err(error) => eprintln!(rt; "{path}: {error}"),
    }
}

// An argument that is longer than a path is taken for an empty one, which names no file.
fn main(rt: HostRuntime) -> io::Result<()> {
    let mut room = [0u8; PATH];
    for i in 1..usize::MAX {
        let n = match rt.arg(i, &mut room) {
            Ok(n) => n,
            Err(FillError::TooLong) => 0,
            Err(FillError::NotPresent) => break,
        };
        match str::from_utf8(&room[..n]) {
            Ok(path) => show_argument(&rt, path)?,
            Err(_) => eprintln!(rt; "argument {i} is not UTF-8")?,
        }
    }
    Ok(())
}
