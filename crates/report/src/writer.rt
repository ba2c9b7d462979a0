// A text, byte by byte and number by number.
ghost use Rattle.std.specs.Prelude.{◌≡◌, List, [], ◌++◌, ℕ, ◌+◌, length, decimal};
ghost use Rattle.report.specs.Lines.{text_of};
ghost use Rattle.report.specs.Made.{Room};

use crate::Text;
use itoa::Buffer;

// The empty text.
pub(crate) fn empty() -> Text
    ensures { result ≡ text_of [] }
{
    Text {
        bytes: [0; 128],
        count: 0,
    }
}

// A text with more bytes behind it.
pub(crate) fn with(text: Text, more: &[u8]) -> Text
    requires { Room (length more.now) text }
    ensures { (held : List ℕ) → text ≡ text_of held → result ≡ text_of (held ++ more.now) }
{
    let mut bytes = text.bytes;
    let at = text.count;
    let end = at + more.len();
    bytes[at..end].copy_from_slice(more);
    Text { bytes, count: end }
}

// A text with a word and a number behind it, the number in decimal.
pub(crate) fn with_number(text: Text, word: &[u8], n: usize) -> Text
    requires { Room (length word.now + 20) text }
    ensures { (held : List ℕ) → text ≡ text_of held → result ≡ text_of (held ++ word.now ++ decimal n) }
{
    let mut digits = Buffer::new();
    with(with(text, word), digits.format(n).as_bytes())
}
