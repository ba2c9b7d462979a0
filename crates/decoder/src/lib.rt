// Decode one word of the three truncated BCH codes of clause 6.3.
//
// With a a root of x^9 + x^4 + 1, a code's generator has the roots a, a^2, .., a^2t; so a word that differs from a codeword in at most t
// places differs so from one codeword alone, and decode finds it, on the word packed into machine words:
//
//   mending    the remainder of the whole word: zero for a codeword, which is its own answer; else the steps below, and a last look; a single
//              hit is tried before any others
//   syndrome   the values of that remainder at a, a^2, .., a^2t, eight digits at a time, by the table of digit_values
//   locator    the shortest recurrence of the syndromes, by Berlekamp and Massey, without inverses
//   search     the places of the shortened word at which the locator vanishes, by the crate roots: listed, and flipped in a copy
//   elements   the same for a word of elements 0 or 1, one bit each
//
// The copy is answered only if it is a codeword, by the remainder again, and differs in at most t places. What the algebra shows is that
// no word within t of a codeword is missed.
#![tactic(auto)]

ghost use Rattle.bch.specs.Promise.{Decoding};
ghost use Rattle.decoder.specs.Promise.{DecodingPacked};

mod digit_values;
mod elements;
mod locator;
mod mending;
mod search;
mod syndrome;

use answers::{DecodedWord, Refusal};
use bch::{checks, code};

// What decode answers of a packed word, and the codeword, packed; in a refusal no bit but 0 (document 02, item 10), so the bits stand beside the answer.
#[derive(Clone, Copy)]
pub struct DecodedPacked {
    pub told: DecodedWord,
    pub bits: [u64; 8],
}

// Writes the n bits of the codeword that differs from the n bits of word in at most t places, if there is one, and answers those places.
pub fn decode(code: u8, word: &[u8], out: &mut [u8]) -> DecodedWord
    ensures { Decoding code word.now out.old result out.new }
{
    match checks::judged(code, true, word, out) {
        Ok(c) => elements::answer(c.table(), c, word, out),
        Err(why) => answers::no_word(why),
    }
}

// The same for a word that is packed, and the codeword packed: the crates above have both kinds of word. The word is the first n of the 512 bits; those
// behind are not looked at.
pub fn decode_packed(code: u8, words: [u64; 8]) -> DecodedPacked
    ensures { DecodingPacked code words result.told result.bits }
{
    match code::of_number(code) {
        Some(c) => mending::answer(c.table(), c, packed::first(&words, c.n)),
        None => mending::nothing(Refusal::Unknown),
    }
}
