// One packed word of a code that is held: itself where it is a codeword, else a copy with places flipped.
ghost use Rattle.std.specs.Prelude.{◌≡◌, [], ◌∷◌, ◌-◌, ◌*◌, ◌<◌, replicate, Ok};
ghost use Rattle.answers.specs.Answers.{listed, no_word};
ghost use Rattle.bch.specs.Held.{Sound};
ghost use Rattle.bch.specs.Registers.{contents, tops};
ghost use Rattle.packed.specs.Packed.{bits512};
ghost use Rattle.decoder.specs.Candidates.{leftover, word_of, Clear, Ready, Single, Several, Settles, DecodesPacked};
ghost use Rattle.decoder.specs.Syndromes.{Syndromes};

// The table is lent beside its code, so that all of this holds of any sound code; `decode` and `decode_packed` lend the constant one (`Held::table`).
// `Clear c words` stands wherever a word is read: a copy is another word, so that a struct that carries the fact would have to be built, and the fact shown, at
// each step all the same.
use crate::search::Flips;
use crate::{DecodedPacked, locator, search, syndrome};
use answers::{DecodedWord, PLACES, Refusal};
use bch::code::Held;
use bch::register::Register;

// The remainder of the whole word: that of its first k bits, and the other bits added. Of an entry of the table, the machine words below the highest are
// read that a remainder of n - k digits reaches into.
fn leftover(table: &[u64; 192], c: Held, words: &[u64; 8]) -> Register
    requires { Ready c table.now × Clear c words.now }
    ensures { contents result ≡ leftover c (word_of c words.now) }
{
    remainders::leftover(table, (c.n - c.k - 1) / 64, c.k, words)
}

// The word itself where it is a codeword, else a copy with places flipped, if one is found that is.
pub(crate) fn answer(table: &[u64; 192], c: Held, words: [u64; 8]) -> DecodedPacked
    requires { Ready c table.now × Clear c words }
    ensures { DecodesPacked c words result }
{
    let left = leftover(table, c, &words);
    if left.is_zero() {
        return unchanged(words);
    }
    mend(table, c, left, words)
}

// Nothing is mended.
fn unchanged(words: [u64; 8]) -> DecodedPacked
    ensures { result ≡ record { told = record { answer = Ok 0; places = listed [] }; bits = words } }
{
    DecodedPacked {
        told: DecodedWord {
            answer: Ok(0),
            places: [0; PLACES],
        },
        bits: words,
    }
}

// There is no answer.
pub(crate) fn nothing(why: Refusal) -> DecodedPacked
    ensures { (result.told ≡ no_word why) × (bits512 result.bits ≡ replicate 512 0) }
{
    DecodedPacked {
        told: answers::no_word(why),
        bits: [0; 8],
    }
}

// A copy with one place flipped, if that is a codeword; else the one with the places flipped that the locator gives.
fn mend(table: &[u64; 192], c: Held, left: Register, words: [u64; 8]) -> DecodedPacked
    requires { Ready c table.now × Clear c words × (contents left ≡ leftover c (word_of c words)) }
    ensures { DecodesPacked c words result }
{
    let s = syndrome::syndromes(left, c.n - c.k, c.t);
    if let Some(mended) = single(table, c, &s, words) {
        return mended;
    }
    if let Some(mended) = several(table, c, &s, words) {
        return mended;
    }
    nothing(Refusal::Uncorrectable(0))
}

// One hit at a^e makes the syndromes a^e, a^2e, a^3e, ..: where the first three say so, that place is flipped and the copy looked at. It is
// the answer if it is a codeword, whatever the other syndromes are. Each code mends more than one, which nothing that is known of c says: so it
// is asked.
fn single(table: &[u64; 192], c: Held, s: &[u16; 32], words: [u64; 8]) -> Option<DecodedPacked>
    requires { Ready c table.now × Clear c words }
    ensures { Single c words result }
{
    let e = field::logarithm(s[0])?;
    if s[2] != field::product(s[0], s[1]) || c.n <= e || c.t <= 1 {
        return None;
    }
    let place = c.n - 1 - e;
    settle(table, c, one(place), packed::flipped(&words, place))
}

// One place flipped.
fn one(place: usize) -> Flips
    requires { place < 508 }
    ensures { result ≡ record { count = 1; places = listed (place ∷ []) } }
{
    let mut places = [0u16; PLACES];
    places[0] = place as u16;
    Flips { count: 1, places }
}

// A copy with the places flipped that the locator gives, if that is a codeword; none where the locator is longer than t.
fn several(table: &[u64; 192], c: Held, s: &[u16; 32], words: [u64; 8]) -> Option<DecodedPacked>
    requires ready { Ready c table.now × Clear c words }
    requires known { Syndromes (tops (c.n - c.k) (leftover c (word_of c words))) (c.t * 2) s.now }
    ensures { Several c words result }
{
    let found = locator::shortest(s, c.t);
    if c.t < found.len {
        return None;
    }
    let flipped = search::flip(&found.locator, found.len, c.n, &words);
    settle(table, c, flipped.flips, flipped.copy)
}

// The copy, and what was flipped there, if it is a codeword.
fn settle(table: &[u64; 192], c: Held, flips: Flips, copy: [u64; 8]) -> Option<DecodedPacked>
    requires { Ready c table.now × Clear c copy }
    ensures { Settles c flips copy result }
{
    if leftover(table, c, &copy).is_zero() {
        // By a variable: a field that is an array, straight in a literal, has no proof ("the borrow checker does not cover this function yet").
        let places = flips.places;
        return Some(DecodedPacked {
            told: DecodedWord {
                answer: Ok(flips.count),
                places,
            },
            bits: copy,
        });
    }
    None
}

#[cfg(test)]
mod tests {
    use super::answer;
    use crate::DecodedPacked;
    use answers::Refusal;
    use bch::code::Held;
    use bch::register;
    use bch::register::Register;

    // A word of any sound code: the table is made.
    fn of_any(c: Held, words: [u64; 8]) -> DecodedPacked
        requires { Sound c × Clear c words }
        ensures { DecodesPacked c words result }
    {
        answer(&register::table(c.generator), c, words)
    }

    // With the generator and the places of code 1, to mend 3 and not 4: such a code has no number, and `Held::table` gives another code's table for it.
    #[test]
    fn mends_three(rt: HostRuntime) {
        let c = Held {
            n: 508,
            k: 472,
            t: 3,
            generator: Register {
                high: 0xcc2b_989a_1000_0000,
                mid: 0,
                low: 0,
            },
        };
        let three = of_any(c, packed::first(&[1, 2, 0, 0, 0, 4, 0, 0], c.n));
        assert_eq!(rt; three.told.answer, Ok(3));
        assert_eq!(rt; three.bits, [0; 8]);
        let four = of_any(c, packed::first(&[1, 2, 0, 8, 0, 4, 0, 0], c.n));
        assert_eq!(rt; four.told.answer, Err(Refusal::Uncorrectable(0)));
    }
}
