// The lines for each answer.
ghost use Rattle.std.specs.Prelude.{◌≡◌};
ghost use Rattle.report.specs.Lines.{text_of};
ghost use Rattle.report.specs.Made.{accepted_lines, refused_line, answer_lines};

use crate::{Text, writer};
use answers::Told;

// The two lines for a frame that was received.
fn accepted(bytes: usize, mended: usize, differing: usize) -> Text
    ensures { result ≡ text_of (accepted_lines bytes mended differing) }
{
    let t = writer::with_number(writer::empty(), b"payload A ", bytes);
    let t = writer::with_number(t, b" bytes\ncorrected ", mended);
    let t = writer::with_number(t, b" protected ", differing);
    writer::with(t, b" check ok\n")
}

// The line for a refusal.
fn refused(number: usize, place: usize) -> Text
    ensures { result ≡ text_of (refused_line number place) }
{
    let t = writer::with_number(writer::empty(), b"refused ", number);
    let t = writer::with_number(t, b" place ", place);
    writer::with(t, b"\n")
}

// The lines for what an answer tells of a frame of so many bytes. `Told` alone has the number and the place of every refusal, which the text is made of.
pub(crate) fn answered(bytes: usize, told: Told) -> Text
    ensures { result ≡ text_of (answer_lines bytes told) }
{
    if told.number == 0 {
        accepted(bytes, told.mended, told.protected)
    } else {
        refused(usize::from(told.number), told.place)
    }
}
