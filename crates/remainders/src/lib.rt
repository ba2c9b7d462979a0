// Remainders of packed words by a generator, sixteen bits a step, from its table of four parts of sixteen entries (bch's `Held::table`; for any generator
// `register::table`).
// An entry has three machine words, the highest first. The lower ones are 0 for a short generator, so only as many are read as its remainders need: `below`
// is how many of them below the highest.
#![tactic(auto)]

ghost use Rattle.std.specs.Prelude.{◌≡◌, suc, ◌+◌, ◌-◌, ◌*◌, ◌/◌, ◌%◌, ◌^◌, ◌≤◌, ◌<◌, get_or, take, drop};
ghost use Rattle.std.specs.Int.Bits.{bit_xor};
ghost use Rattle.packed.specs.Packed.{bits512};
ghost use Rattle.bch.specs.Registers.{contents, at_top, entry_at};
ghost use Rattle.remainders.specs.Taking.{four_by, FourFit, sixteen_by, turn_by_8, turn_by_16, bytes_by, taken_by, leftover_by};
ghost use Rattle.remainders.specs.Seen.{seen};

use bch::register::Register;

// What is left of a packed word whose first k bits are information, whole bytes: the bytes among them, 63 at most, taken in by the table, and the
// 192 bits from the place k on added. It holds for any table, `below` and k (the promise `leftover_by`), so they are not taken from a code.
pub fn leftover(table: &[u64; 192], below: usize, k: usize, words: &[u64; 8]) -> Register
    ensures { contents result ≡ leftover_by (take (64 * suc below) table.now) k words.now }
{
    let seen = Seen { table, below };
    seen.taken(k / 8, words).xor(behind(words, k))
}

// A table, and how many machine words of each entry are read below the highest.
#[derive(Clone, Copy)]
struct Seen<'a> {
    table: &'a [u64; 192],
    below: usize,
}

impl Seen<'_> {
    // The first m bytes, 63 at most, taken in.
    fn taken(&self, m: usize, words: &[u64; 8]) -> Register
        ensures { contents result ≡ taken_by (seen self.now) m words.now }
    {
        let bytes = m.min(63);
        let mut r = Register::ZERO;
        for i in 0..bytes / 8 {
            r = self.machine_word(r, words[i]);
        }
        self.some_bytes(r, words[bytes / 8], bytes % 8)
    }

    // The 64 digits of v into the register.
    fn machine_word(&self, r: Register, v: u64) -> Register
        ensures { contents result ≡ bytes_by (seen self.now) 8 (contents r) v }
    {
        let r0 = plus_top(r, v);
        let r1 = self.turn16(r0);
        let r2 = self.turn16(r1);
        let r3 = self.turn16(r2);
        self.turn16(r3)
    }

    // The first n of the eight bytes of v into the register.
    fn some_bytes(&self, r: Register, v: u64, n: usize) -> Register
        requires { n < 8 }
        ensures { contents result ≡ bytes_by (seen self.now) n (contents r) v }
    {
        let mut s = plus_top(r, first_bytes(v, n));
        for _ in 0..n / 2 {
            s = self.turn16(s);
        }
        if n % 2 == 1 { self.turn8(s) } else { s }
    }

    // Sixteen zeros into the register.
    fn turn16(&self, r: Register) -> Register
        ensures { contents result ≡ turn_by_16 (seen self.now) (contents r) }
    {
        up16(r).xor(self.sixteen(top16(r)))
    }

    // Eight zeros into the register.
    fn turn8(&self, r: Register) -> Register
        ensures { contents result ≡ turn_by_8 (seen self.now) (contents r) }
    {
        let at = r.top8() as usize;
        let added = self.entry(16 + at / 16).xor(self.entry(at % 16));
        r.up8().xor(added)
    }

    // What the table has for the sixteen digits of z.
    fn sixteen(&self, z: usize) -> Register
        requires { z < 65536 }
        ensures { contents result ≡ sixteen_by (seen self.now) z }
    {
        Register {
            high: self.four(0, z),
            mid: self.four(1, z),
            low: self.four(2, z),
        }
    }

    // The sum of the machine words w of the four entries for the sixteen digits of z; 0 where they are not read.
    fn four(&self, w: usize, z: usize) -> u64
        requires { (w ≤ 2) × (z < 65536) }
        ensures { (result ≡ four_by (seen self.now) (64 * w) z) × FourFit (seen self.now) (64 * w) z }
    {
        if self.below < w {
            return 0;
        }
        let at = 64 * w;
        (self.table[at + (48 + z / 4096)] ^ self.table[at + (32 + z / 256 % 16)])
            ^ (self.table[at + (16 + z / 16 % 16)] ^ self.table[at + z % 16])
    }

    // The entry i.
    fn entry(&self, i: usize) -> Register
        requires { i < 64 }
        ensures { contents result ≡ entry_at (seen self.now) i }
    {
        Register {
            high: self.one(0, i),
            mid: self.one(1, i),
            low: self.one(2, i),
        }
    }

    // The machine word w of the entry i; 0 where it is not read.
    fn one(&self, w: usize, i: usize) -> u64
        requires { (w ≤ 2) × (i < 64) }
        ensures { result ≡ get_or (seen self.now) (64 * w + i) 0 }
    {
        if w <= self.below {
            self.table[64 * w + i]
        } else {
            0
        }
    }
}

// The first n of the eight bytes of v, and zeros behind them.
fn first_bytes(v: u64, n: usize) -> u64
    requires { n < 8 }
    ensures { result ≡ v / 2 ^ (64 - 8 * n) * 2 ^ (64 - 8 * n) % 2 ^ 64 }
{
    if n == 0 {
        0
    } else {
        v >> (64 - 8 * n) << (64 - 8 * n)
    }
}

// The digits of v added to the highest 64.
fn plus_top(r: Register, v: u64) -> Register
    ensures { contents result ≡ bit_xor (contents r) (v * 2 ^ 128) }
{
    Register {
        high: r.high ^ v,
        ..r
    }
}

// The sixteen highest digits.
fn top16(r: Register) -> usize
    ensures { (result ≡ contents r / 2 ^ 176) × (result < 65536) }
{
    (r.high >> 48) as usize
}

// Sixteen places up; the highest sixteen digits fall out.
fn up16(r: Register) -> Register
    ensures { contents result ≡ contents r * 2 ^ 16 % 2 ^ 192 }
{
    Register {
        high: r.high % 0x1_0000_0000_0000 * 65536 + r.mid / 0x1_0000_0000_0000,
        mid: r.mid % 0x1_0000_0000_0000 * 65536 + r.low / 0x1_0000_0000_0000,
        low: r.low % 0x1_0000_0000_0000 * 65536,
    }
}

// The 192 bits from the place `at` on at the top of a register; behind the last there are zeros.
fn behind(words: &[u64; 8], at: usize) -> Register
    ensures { contents result ≡ at_top (take 192 (drop at (bits512 words.now))) }
{
    if 511 < at {
        return Register::ZERO;
    }
    let i = at / 64;
    let p = at % 64;
    let a = packed::word_at(words, i + 1);
    let b = packed::word_at(words, i + 2);
    Register {
        high: packed::across(words[i], a, p),
        mid: packed::across(a, b, p),
        low: packed::across(b, packed::word_at(words, i + 3), p),
    }
}
