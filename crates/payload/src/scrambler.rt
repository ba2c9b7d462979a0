// The scrambler of clause 6.2: a register of 15 digits, stage 15 the highest.
ghost use Rattle.std.specs.Prelude.{◌≡◌, ◌+◌, ◌*◌, ◌%◌, ◌≤◌, ◌<◌, length, take, drop, replicate};
ghost use mathlib.Core.List.{zip_with};
ghost use Rattle.std.specs.Int.Bits.{bit_xor};
ghost use Rattle.bits.specs.Words.{digits};
ghost use Rattle.bits.specs.Bytes.{bits_of};
ghost use Rattle.packed.specs.Packed.{bits_from, bits512, padded_to, padded};
ghost use Rattle.payload.specs.Scrambler.{formed, shifted, scrambled_from, register_after};

// Stages 15 down to 1 at the start of each frame.
pub const START: u16 = 0b010010011011000;

// Stage 14 xor stage 15.
fn form(register: u16) -> u16
    ensures { (result ≡ formed register) × (result < 2) }
{
    (register / 0x2000 % 2) ^ (register / 0x4000 % 2)
}

// It is shifted into stage 1.
fn shift(register: u16) -> u16
    ensures { result ≡ shifted register }
{
    register % 0x4000 * 2 + form(register)
}

// Scrambles bits in place, from a register; answers the register after. Scrambling again from the same register gives them back.
// It stays a call: put into its caller, its eight bits go through a vector register, which takes half as long again.
#[inline(never)]
pub fn scramble(register: u16, bits: &mut [u8]) -> u16
    ensures { (bits.new ≡ scrambled_from register bits.old) × (result ≡ register_after (length bits.old) register) }
{
    let mut after = register;
    let whole = bits.len() / 8;
    for k in 0..whole {
        add_eight(form8(after), &mut bits[8 * k..8 * k + 8]);
        after = shift8(after);
    }
    for i in 8 * whole..bits.len() {
        bits[i] ^= form(after) as u8;
        after = shift(after);
    }
    after
}

// Adds the digits of key to eight elements.
fn add_eight(key: u8, bits: &mut [u8])
    requires { length bits.old ≡ 8 }
    ensures { bits.new ≡ zip_with bit_xor bits.old (digits 8 key) }
{
    for i in 0..8 {
        bits[i] ^= key >> (7 - i) & 1;
    }
}

// 64 bits scrambled, and the register after them.
#[derive(Clone, Copy)]
pub struct Scrambled {
    pub bits: u64,
    pub register: u16,
}

// Fourteen formed bits: as many as the register tells without a shift. One, eight, fourteen and 64 bits have functions of their own, since each is formed
// otherwise: digits of the register, the front of fourteen, or runs of fourteen and eight.
pub(crate) fn form14(register: u16) -> u16
    ensures { (digits 14 result ≡ scrambled_from register (replicate 14 0)) × (result < 0x4000) }
{
    (register ^ register >> 1) % 0x4000
}

// Fourteen formed bits are shifted in.
pub(crate) fn shift14(register: u16) -> u16
    ensures { result ≡ register_after 14 register }
{
    register % 2 * 0x4000 + form14(register)
}

// Eight formed bits.
fn form8(register: u16) -> u8
    ensures { digits 8 result ≡ scrambled_from register (replicate 8 0) }
{
    (form14(register) / 64) as u8
}

// Eight formed bits are shifted in.
fn shift8(register: u16) -> u16
    ensures { result ≡ register_after 8 register }
{
    register % 128 * 256 + u16::from(form8(register))
}

// 64 formed bits: four times fourteen, and eight.
fn form64(register: u16) -> u64
    ensures { digits 64 result ≡ scrambled_from register (replicate 64 0) }
{
    let r1 = shift14(register);
    let r2 = shift14(r1);
    let r3 = shift14(r2);
    let r4 = shift14(r3);
    ((((form14(register) as u64) << 14 | form14(r1) as u64) << 14 | form14(r2) as u64) << 14
        | form14(r3) as u64)
        << 8
        | form8(r4) as u64
}

// 64 formed bits are shifted in.
fn shift64(register: u16) -> u16
    ensures { result ≡ register_after 64 register }
{
    shift8(shift14(shift14(shift14(shift14(register)))))
}

// Scrambles 64 bits, the digits of a machine word.
pub fn scramble64(register: u16, x: u64) -> Scrambled
    ensures { (digits 64 result.bits ≡ scrambled_from register (digits 64 x)) × (result.register ≡ register_after 64 register) }
{
    Scrambled {
        bits: x ^ form64(register),
        register: shift64(register),
    }
}

// Scrambles the bits of machine words from a register, as many as out has bytes for, and writes those bytes; answers the register after. Behind the last
// machine word there are zeros.
pub fn write_bytes(register: u16, words: &[u64], out: &mut [u8]) -> u16
    ensures { (length out.new ≡ length out.old) × (bits_of out.new ≡ scrambled_from register (take (8 * length out.old) (bits_from (length out.old) 0 words.now))) × (result ≡ register_after (8 * length out.old) register) }
{
    let mut s = register;
    let whole = out.len() / 8;
    for k in 0..whole {
        let eight = scramble64(s, packed::word_at(words, k));
        out[8 * k..8 * k + 8].copy_from_slice(&eight.bits.to_be_bytes());
        s = eight.register;
    }
    let last = packed::word_at(words, whole).to_be_bytes();
    for j in 8 * whole..out.len() {
        out[j] = last[j % 8] ^ form8(s);
        s = shift8(s);
    }
    s
}

// Bits scrambled and packed, and the register after them.
#[derive(Clone, Copy)]
pub struct Packed {
    pub bits: [u64; 8],
    pub register: u16,
}

// The bits of bytes, the first 64 of them, scrambled and packed, with zeros behind.
pub fn pack_bytes(register: u16, bytes: &[u8]) -> Packed
    ensures { (bits512 result.bits ≡ padded (scrambled_from register (bits_of (take 64 bytes.now)))) × (result.register ≡ register_after (8 * length (take 64 bytes.now)) register) }
{
    let (eights, rest) = bytes[..bytes.len().min(64)].as_chunks::<8>();
    let mut out = [0u64; 8];
    let mut s = register;
    for w in 0..eights.len() {
        let eight = scramble64(s, u64::from_be_bytes(eights[w]));
        out[w] = eight.bits;
        s = eight.register;
    }
    if 0 < rest.len() {
        let last = scramble_last(s, rest);
        out[eights.len()] = last.bits;
        s = last.register;
    }
    Packed {
        bits: out,
        register: s,
    }
}

// The bits of at most eight bytes scrambled, with zeros behind, and the register after them.
fn scramble_last(register: u16, bytes: &[u8]) -> Scrambled
    requires { (0 < length bytes.now) × (length bytes.now ≤ 8) }
    ensures { (digits 64 result.bits ≡ padded_to 64 (scrambled_from register (bits_of bytes.now))) × (result.register ≡ register_after (8 * length bytes.now) register) }
{
    let mut x: u64 = 0;
    let mut s = register;
    for byte in bytes {
        x = x << 8 | u64::from(*byte ^ form8(s));
        s = shift8(s);
    }
    Scrambled {
        bits: x << (64 - 8 * bytes.len()),
        register: s,
    }
}
