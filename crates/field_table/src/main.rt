// Writes all 262,144 products of GF(512), x outside and y inside, and then the 512 inverses: two bytes each, the low one first.
// Its file `stdout` is what `second field` writes, so that a run of this program holds the two fields together.
#![tactic(auto)]

ghost use Rattle.streams.specs.Streams.{Grows};

use std::io;
use std::io::Write;

// Of the 513 rows the last is that of the inverses.
fn entry(row: u16, y: u16) -> u16 {
    if row < 512 {
        field::product(row, y)
    } else {
        field::inverse(y)
    }
}

fn write_row<W: Write>(row: u16, to: &mut W) -> io::Result<()>
    ensures { Grows (W.contents to.old) (W.contents to.new) }
{
    let mut out = [0u8; 1024];
    for y in 0..512u16 {
        let at = usize::from(y) * 2;
        out[at..at + 2].copy_from_slice(&entry(row, y).to_le_bytes());
    }
    streams::write_whole(to, &out)
}

fn main(rt: HostRuntime) -> io::Result<()> {
    let mut to = io::writer(&rt);
    for row in 0..=512u16 {
        write_row(row, &mut to)?;
    }
    Ok(())
}
