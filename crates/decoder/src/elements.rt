// A word of elements 0 or 1: packed and decoded, and what was mended written out.
ghost use Rattle.std.specs.Prelude.{◌≡◌, ◌++◌, ℕ, ◌<◌, ◌≤◌, length, take, drop, get_or};
ghost use Rattle.answers.specs.Answers.{most_places};
ghost use Rattle.answers.specs.Checks.{passes};
ghost use Rattle.bits.specs.Words.{Bits};
ghost use Rattle.bits.specs.Places.{flipped_at};
ghost use Rattle.bch.specs.Promise.{Decodes};
ghost use Rattle.bch.specs.Held.{code_of, Fitting};
ghost use Rattle.decoder.specs.Candidates.{Ready};

use crate::mending;
use answers::{DecodedWord, PLACES};
use bch::code::Held;

// The word's answer, and the codeword written where there is one.
pub(crate) fn answer(table: &[u64; 192], c: Held, word: &[u8], out: &mut [u8]) -> DecodedWord
    requires { Fitting c c.n word.now out.old × Ready c table.now }
    ensures { Decodes (passes (code_of c)) word.now out.old result out.new }
{
    let mended = mending::answer(table, c, packed::pack(word));
    let told = mended.told;
    match told.answer {
        Ok(count) => {
            write(word, count, &told.places, out);
            told
        }
        Err(_) => told,
    }
}

// Writes the word with the first `count` of these places flipped.
fn write(word: &[u8], count: usize, places: &[u16; PLACES], out: &mut [u8])
    requires bits { Bits word.now × (length word.now ≤ length out.old) × (count ≤ most_places) }
    requires count_in_bounds { (count ≤ length places.now) × ((j : ℕ) → j < count → get_or places.now j 0 < length word.now) }
    ensures { out.new ≡ flipped_at (take count places.now) word.now ++ drop (length word.now) out.old }
{
    bits::put_front(word, out);
    // By index: what is known of the loop counts the places that are flipped.
    for j in 0..count {
        let p = usize::from(places[j]);
        out[p] = 1 - out[p];
    }
}
