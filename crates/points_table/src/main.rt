// For 2 to 10 bits: I and Q of every label, and then the label (65535 for a stray point) of every point with both levels from -40 to 40, I
// outside and Q inside: two bytes each, the low one first. Its file `stdout` is what `second points` writes, so that a run of this program
// holds the two sets of tables together.
#![tactic(auto)]

ghost use Rattle.streams.specs.Streams.{Grows};

use points::{Point, constellation};
use std::io;
use std::io::Write;

fn main(rt: HostRuntime) -> io::Result<()> {
    let mut to = io::writer(&rt);
    for bits in 2..=10u8 {
        write_points(bits, &mut to)?;
        write_labels(bits, &mut to)?;
    }
    Ok(())
}

// The points of all labels of so many bits.
fn write_points<W: Write>(bits: u8, to: &mut W) -> io::Result<()>
    ensures { Grows (W.contents to.old) (W.contents to.new) }
{
    for label in 0..1024u16 {
        write_point(constellation::point(bits, label), to)?;
    }
    Ok(())
}

fn write_point<W: Write>(point: Point, to: &mut W) -> io::Result<()>
    ensures { Grows (W.contents to.old) (W.contents to.new) }
{
    match point {
        Point::At { i, q } => {
            let [i_low, i_high] = i.to_le_bytes();
            let [q_low, q_high] = q.to_le_bytes();
            streams::write_whole(to, &[i_low, i_high, q_low, q_high])
        }
        Point::Nothing => Ok(()),
    }
}

// The labels of so many bits of all points near the middle.
fn write_labels<W: Write>(bits: u8, to: &mut W) -> io::Result<()>
    ensures { Grows (W.contents to.old) (W.contents to.new) }
{
    for i in -40..=40i16 {
        write_row(bits, i, to)?;
    }
    Ok(())
}

fn write_row<W: Write>(bits: u8, i: i16, to: &mut W) -> io::Result<()>
    ensures { Grows (W.contents to.old) (W.contents to.new) }
{
    let mut row = [0u8; 162];
    for k in 0..81usize {
        let label = constellation::label(bits, i, k as i16 - 40).unwrap_or(65535);
        let [low, high] = label.to_le_bytes();
        row[2 * k] = low;
        row[2 * k + 1] = high;
    }
    streams::write_whole(to, &row)
}
