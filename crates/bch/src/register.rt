// A register of 192 binary digits in three machine words, the highest first. A remainder of r digits stands at its top, with zeros below,
// so that one step serves all three codes. A word is taken in eight bits at a time, by a table of remainders in two halves, one for
// the upper four of eight digits and one for the lower four; `table` makes one of four parts to lend, for sixteen bits at a time.
ghost use Rattle.std.specs.Prelude.{◌≡◌, ◌∷◌, ◌++◌, ℕ, ◌+◌, ◌*◌, ◌/◌, ◌%◌, ◌^◌, ◌≤◌, ◌<◌, eqb, length, get_or, replicate};
ghost use Rattle.std.specs.Int.Bits.{bit_xor};
ghost use Rattle.bits.specs.Words.{lowest, digits};
ghost use Rattle.bits.specs.Remainders.{step, remainder, remainder_from};
ghost use Rattle.bch.specs.Registers.{contents, whole, tops, chosen, Sixteens, EntriesTo, Remainders};

#[derive(Clone, Copy, PartialEq, Eq)]
pub struct Register {
    pub high: u64,
    pub mid: u64,
    pub low: u64,
}

impl Register {
    // No digit but 0.
    pub const ZERO: Register = Register {
        high: 0,
        mid: 0,
        low: 0,
    };

    pub fn is_zero(self) -> bool
        ensures { result ≡ eqb (contents self) 0 }
    {
        self == Register::ZERO
    }

    // The highest digit.
    fn top(self) -> u64
        ensures { (result ≡ contents self / 2 ^ 191) × (result < 2) }
    {
        self.high / 0x8000_0000_0000_0000
    }

    // One place up; the highest digit falls out.
    fn up(self) -> Register
        ensures { contents result ≡ contents self * 2 % 2 ^ 192 }
    {
        Register {
            high: self.high % 0x8000_0000_0000_0000 * 2 + self.mid / 0x8000_0000_0000_0000,
            mid: self.mid % 0x8000_0000_0000_0000 * 2 + self.low / 0x8000_0000_0000_0000,
            low: self.low % 0x8000_0000_0000_0000 * 2,
        }
    }

    // The eight highest digits.
    pub fn top8(self) -> u64
        ensures { (result ≡ contents self / 2 ^ 184) × (result < 256) }
    {
        self.high / 0x0100_0000_0000_0000
    }

    // Eight places up; the highest eight digits fall out.
    pub fn up8(self) -> Register
        ensures { contents result ≡ contents self * 256 % 2 ^ 192 }
    {
        Register {
            high: self.high % 0x0100_0000_0000_0000 * 256 + self.mid / 0x0100_0000_0000_0000,
            mid: self.mid % 0x0100_0000_0000_0000 * 256 + self.low / 0x0100_0000_0000_0000,
            low: self.low % 0x0100_0000_0000_0000 * 256,
        }
    }

    // The sum without carries.
    pub fn xor(self, s: Register) -> Register
        ensures { contents result ≡ bit_xor (contents self) (contents s) }
    {
        Register {
            high: self.high ^ s.high,
            mid: self.mid ^ s.mid,
            low: self.low ^ s.low,
        }
    }

    // The register takes in one bit; the generator g stands without its highest digit.
    fn step(self, g: Register, b: u8) -> Register
        requires { b < 2 }
        ensures { contents result ≡ step 192 (whole g) (contents self) b }
    {
        let moved = self.up();
        if self.top() == u64::from(b) {
            moved
        } else {
            moved.xor(g)
        }
    }

    // The eight digits that fall out of the register, with those of b added: the upper four are a place in one half of the table, the lower four in the
    // other.
    fn slot(self, b: u8) -> usize
        ensures { (result ≡ bit_xor (contents self / 2 ^ 184) b) × (result < 256) }
    {
        (self.top8() ^ u64::from(b)) as usize
    }

    // The register takes in eight bits; high and low together are the remainder of what falls out with those bits added.
    fn step8(self, high: Register, low: Register) -> Register
        ensures { (g b i : ℕ) → i ≡ bit_xor (contents self / 2 ^ 184) b → contents high ≡ remainder 192 g (digits 4 (i / 16) ++ replicate 4 0) → contents low ≡ remainder 192 g (digits 4 (i % 16) ++ replicate 0 0) → contents result ≡ remainder_from 192 g (contents self) (digits 8 b) }
    {
        self.up8().xor(high.xor(low))
    }

    // The highest digits, as many as out has places.
    pub fn put(self, out: &mut [u8])
        ensures { out.new ≡ tops (length out.old) (contents self) }
    {
        let mut rest = self;
        for i in 0..out.len() {
            out[i] = (rest.top() % 2) as u8;
            rest = rest.up();
        }
    }
}

// At each i the sum of those of a, b, c, d whose digit in i is 1, that of a the lowest.
fn chosen(a: Register, b: Register, c: Register, d: Register) -> [Register; 16]
    ensures { (i : ℕ) (z : Register) → i < 16 → contents (get_or result i z) ≡ chosen i (contents a) (contents b) (contents c) (contents d) }
{
    let ab = a.xor(b);
    let cd = c.xor(d);
    [
        Register::ZERO,
        a,
        b,
        ab,
        c,
        c.xor(a),
        c.xor(b),
        c.xor(ab),
        d,
        d.xor(a),
        d.xor(b),
        d.xor(ab),
        cd,
        cd.xor(a),
        cd.xor(b),
        cd.xor(ab),
    ]
}

// A part of a table: the remainders of the sixteen words of four bits with k zeros behind, where x is that of a 1 with k zeros behind.
fn sixteen(g: Register, x: Register) -> [Register; 16]
    ensures { (k : ℕ) → contents x ≡ remainder 192 (whole g) (1 ∷ replicate k 0) → Sixteens (whole g) k result }
{
    let b = x.step(g, 0);
    let c = b.step(g, 0);
    let d = c.step(g, 0);
    chosen(x, b, c, d)
}

// A table to lend to `remainders::leftover`, for any generator g: the remainders of the sixteen words of four bits with 0, 4, 8 and 12 zeros behind.
// The three codes have theirs as constants (`Held::table`), which no job makes.
pub fn table(g: Register) -> [u64; 192]
    ensures { Remainders (whole g) result }
{
    // At 8 in a part stands the remainder of a 1 with three zeros more behind; one zero more, and the next part begins.
    let a = sixteen(g, g);
    let b = sixteen(g, a[8].step(g, 0));
    let c = sixteen(g, b[8].step(g, 0));
    let d = sixteen(g, c[8].step(g, 0));
    let mut out = [0u64; 192];
    put_part(a, 0, &mut out);
    put_part(b, 16, &mut out);
    put_part(c, 32, &mut out);
    put_part(d, 48, &mut out);
    out
}

// Puts the sixteen entries of a part from the entry `from` on.
fn put_part(part: [Register; 16], from: usize, out: &mut [u64; 192])
    requires { (length out.old ≡ 192) × (from ≤ 48) }
    ensures { (length out.new ≡ 192) × ((g j : ℕ) → from ≡ 16 * j → Sixteens g (4 * j) part → EntriesTo from g out.old → EntriesTo (from + 16) g out.new) }
{
    for i in 0..16 {
        let r = part[i];
        let e = from + i;
        out[e] = r.high;
        out[64 + e] = r.mid;
        out[128 + e] = r.low;
    }
}

// The remainder of word by any generator g, eight bits at a time; an element counts as its lowest binary digit. By those of the three codes it is found
// faster, by their tables, of words that are packed: the crate remainders.
pub fn remainder(g: Register, word: &[u8]) -> Register
    ensures { contents result ≡ remainder 192 (whole g) (lowest word.now) }
{
    // The remainder of a 1 is the generator without its highest digit; that of a 1 with three zeros behind stands at 8.
    let lows = sixteen(g, g);
    let highs = sixteen(g, lows[8].step(g, 0));
    let (eights, rest) = word.as_chunks::<8>();
    let mut r = Register::ZERO;
    for eight in eights {
        let at = r.slot(bits::eight(eight));
        r = r.step8(highs[at / 16], lows[at % 16]);
    }
    for &b in rest {
        r = r.step(g, b % 2);
    }
    r
}
