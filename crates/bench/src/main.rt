// The bench program (document 01, "Bench program"): reads a frame from standard input, sends it as Payload A, receives it back and writes what
// came of it. What it writes for which frame is the promise of `report`; here is reading and writing alone.
#![tactic(auto)]

ghost use Rattle.std.specs.Prelude.{IfOk, IsTrue};
ghost use Rattle.std.specs.Io.KnownBytes.{IsAtEnd};
ghost use Rattle.streams.specs.Streams.{LeavesRest};

use std::io;
use std::io::Read;

// One byte more than the longest frame has: input of so many bytes is too long, whatever follows.
const MOST: usize = 95;

// Reads what follows to its end, so that whoever writes it is not cut off, and answers whether it came there. A proved loop has to end, and nothing says that
// the input does: the turns are as many as no run uses up.
fn skip_rest<R: Read>(from: &mut R) -> io::Result<bool>
    ensures end { IfOk result (λ ended. IsTrue ended → IsAtEnd (R.remaining from.new)) }
    ensures rest { LeavesRest (R.remaining from.old) (R.remaining from.new) }
{
    let mut skipped = [0u8; 4096];
    for _ in 0..u64::MAX {
        if streams::read_full(from, &mut skipped)? < skipped.len() {
            return Ok(true);
        }
    }
    Ok(false)
}

fn main(rt: HostRuntime) -> io::Result<()> {
    let mut from = rt.reader();
    let mut input = [0u8; MOST];
    let n = streams::read_full(&mut from, &mut input)?;
    if n == MOST {
        skip_rest(&mut from)?;
    }
    let text = report::report(&input[..n]);
    streams::write_whole(&mut io::writer(&rt), &text.bytes[..text.count])
}

#[cfg(test)]
mod tests {
    use crate::skip_rest;

    #[test]
    fn skips_to_the_end(rt: HostRuntime) {
        let long = [7u8; 10000];
        let mut input = &long[..];
        assert!(rt; matches!(skip_rest(&mut input), Ok(true)));
        assert!(rt; input.is_empty());
    }
}
