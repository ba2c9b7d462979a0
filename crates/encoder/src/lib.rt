// Encode one word of the three truncated BCH codes of clause 6.3: the information, and behind it the remainder.
#![tactic(auto)]

ghost use Rattle.std.specs.Prelude.{◌≡◌, ◌++◌, take, drop};
ghost use Rattle.bch.specs.Codes.{encoded};
ghost use Rattle.bch.specs.Held.{Sound, code_of, Fitting};
ghost use Rattle.bch.specs.Promise.{Encoding};
ghost use Rattle.bch.specs.Registers.{contents, whole, Remainders};
ghost use Rattle.bits.specs.Remainders.{remainder};
ghost use Rattle.packed.specs.Packed.{bits512, padded};
ghost use Rattle.encoder.specs.Promise.{EncodingPacked};

use answers::Refusal;
use bch::code::Held;
use bch::register::Register;
use bch::{checks, code};

// What encode answers of packed information, and the codeword, packed. In a refusal it has no bit but 0 (`EncodingPacked`), so it stands beside the answer.
#[derive(Clone, Copy)]
pub struct EncodedPacked {
    pub told: Result<(), Refusal>,
    pub bits: [u64; 8],
}

// Writes the n bits of the codeword for the k bits of word.
pub fn encode(code: u8, word: &[u8], out: &mut [u8]) -> Result<(), Refusal>
    ensures { Encoding code word.now out.old result out.new }
{
    let c = checks::judged(code, false, word, out)?;
    write(c.table(), &c, word, out);
    Ok(())
}

// The same for information that is packed, and the codeword packed. The information is the first k of the 512 bits; those behind are not looked at.
pub fn encode_packed(code: u8, words: [u64; 8]) -> EncodedPacked
    ensures { EncodingPacked code words result.told result.bits }
{
    match code::of_number(code) {
        Some(c) => EncodedPacked {
            told: Ok(()),
            bits: codeword(c.table(), &c, packed::first(&words, c.k)),
        },
        None => EncodedPacked {
            told: Err(Refusal::Unknown),
            bits: [0; 8],
        },
    }
}

// The codeword of packed information, with zeros behind it: the remainder is put behind the information. The table is lent beside its code, so that this and
// what follows holds of any sound code; both entries lend the constant one (`Held::table`).
fn codeword(table: &[u64; 192], c: &Held, information: [u64; 8]) -> [u64; 8]
    requires { Sound c.now × Remainders (whole c.now.generator) table.now × (bits512 information ≡ padded (take c.now.k (bits512 information))) }
    ensures { bits512 result ≡ padded (encoded (code_of c.now) (take c.now.k (bits512 information))) }
{
    let r = remainder(table, c, &information);
    let behind = packed::down(&[r.high, r.mid, r.low, 0, 0, 0, 0, 0], c.k);
    packed::xor(&information, &behind)
}

// The information, and behind it the remainder.
fn write(table: &[u64; 192], c: &Held, bits: &[u8], out: &mut [u8])
    requires { Fitting c.now c.now.k bits.now out.old × Remainders (whole c.now.generator) table.now }
    ensures { out.new ≡ encoded (code_of c.now) bits.now ++ drop c.now.n out.old }
{
    let r = remainder(table, c, &packed::pack(bits));
    bits::put_front(bits, out);
    r.put(&mut out[c.k..c.n]);
}

// The remainder of packed information, with zeros behind it.
fn remainder(table: &[u64; 192], c: &Held, information: &[u64; 8]) -> Register
    requires { Sound c.now × Remainders (whole c.now.generator) table.now × (bits512 information.now ≡ padded (take c.now.k (bits512 information.now))) }
    ensures { contents result ≡ remainder 192 (whole c.now.generator) (take c.now.k (bits512 information.now)) }
{
    remainders::leftover(table, (c.n - c.k - 1) / 64, c.k, information)
}
