// The checks 1, 2, 3 and 4, with which encode and decode begin.
ghost use Rattle.bch.specs.Held.{Judged};

use crate::code;
use crate::code::Held;
use answers::Refusal;

// For a word of n bits where it should be whole, else of k, and for a lent list of n elements or more: the code, or the check that fails.
pub fn judged(code: u8, whole: bool, word: &[u8], out: &[u8]) -> Result<Held, Refusal>
    ensures { Judged code whole word.now out.now result }
{
    let c = code::of_number(code).ok_or(Refusal::Unknown)?;
    if word.len() != c.size(whole) {
        return Err(Refusal::WrongLength);
    }
    if out.len() < c.n {
        return Err(Refusal::NoRoom);
    }
    let bad = bits::first_bad(word);
    if bad < word.len() {
        return Err(Refusal::NotABit(bad));
    }
    Ok(c)
}
