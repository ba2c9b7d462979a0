// Words packed: bits in machine words, 64 binary digits in each, the highest first. Eight machine words hold 512 bits; a shorter word stands first, with
// zeros behind. A run of 41 holds bits on their way between words and OFDM symbols.
#![tactic(auto)]

ghost use Rattle.std.specs.Prelude.{◌≡◌, cond, ℕ, ◌+◌, ◌-◌, ◌*◌, ◌/◌, ◌%◌, ◌<◌, ◌≤◌, eqb, leb, length, take, drop, get_or, set, replicate};
ghost use mathlib.Core.List.{◌++◌, zip_with};
ghost use Rattle.std.specs.Int.Bits.{bit_xor};
ghost use Rattle.bits.specs.Words.{lowest, digits, differ};
ghost use Rattle.packed.specs.Packed.{bits_from, bits512, padded};

// The machine words of a run: 512 bits, and behind them those of an OFDM symbol, 2,100 at most.
pub const RUN: usize = 41;

// A word packed, the first 512 of its elements; an element counts as its lowest binary digit.
pub fn pack(word: &[u8]) -> [u64; 8]
    ensures { bits512 result ≡ padded (take 512 (lowest word.now)) }
{
    let mut out = [0u64; 8];
    for w in 0..8 {
        out[w] = piece(word, 64 * w);
    }
    out
}

// The sums of bits without carries, place by place.
pub fn xor(v: &[u64; 8], w: &[u64; 8]) -> [u64; 8]
    ensures { bits512 result ≡ zip_with bit_xor (bits512 v.now) (bits512 w.now) }
{
    let mut out = [0u64; 8];
    for i in 0..8 {
        out[i] = v[i] ^ w[i];
    }
    out
}

// The bit of a place flipped, if there is such a place.
pub fn flipped(words: &[u64; 8], p: usize) -> [u64; 8]
    ensures { bits512 result ≡ set (bits512 words.now) p (1 - get_or (bits512 words.now) p 0) }
{
    let mut out = *words;
    if p < 512 {
        out[p / 64] ^= 0x8000_0000_0000_0000 >> (p % 64);
    }
    out
}

// The first n bits, with zeros behind.
pub fn first(words: &[u64; 8], n: usize) -> [u64; 8]
    ensures { bits512 result ≡ padded (take n (bits512 words.now)) }
{
    let mut out = [0u64; 8];
    for w in 0..8 {
        out[w] = top(words[w], n, 64 * w);
    }
    out
}

// Whether there are zeros alone behind the first n of the bits of eight machine words.
pub fn ends_at(words: &[u64; 8], n: usize) -> bool
    ensures { result ≡ eqb (differ (bits512 words.now) (padded (take n (bits512 words.now)))) 0 }
{
    first(words, n) == *words
}

// 512 bits of machine words, from the place `at` on; behind the last machine word there are zeros.
pub fn window(words: &[u64], at: usize) -> [u64; 8]
    ensures { bits512 result ≡ take 512 (drop at (bits_from (at / 64 + 9) 0 words.now)) }
{
    let i = at / 64;
    let p = at % 64;
    let mut out = [0u64; 8];
    for w in 0..8 {
        out[w] = across(word_at(words, i + w), word_at(words, i + w + 1), p);
    }
    out
}

// A run that begins with 512 bits; behind them there are zeros.
pub fn begun(front: [u64; 8]) -> [u64; RUN]
    ensures { bits_from 41 0 result ≡ bits512 front ++ replicate 2112 0 }
{
    let mut out = [0u64; RUN];
    out[..8].copy_from_slice(&front);
    out
}

// 512 bits written into a run, from the place `at` on, where there is room for them.
pub fn put(run: [u64; RUN], bits: [u64; 8], at: usize) -> [u64; RUN]
    ensures { bits_from 41 0 result ≡ cond (leb at 2112) (take at (bits_from 41 0 run) ++ (bits512 bits ++ drop (at + 512) (bits_from 41 0 run))) (bits_from 41 0 run) }
{
    if 2112 < at {
        return run;
    }
    let i = at / 64;
    let p = at % 64;
    let mut out = run;
    let mut before = above(out[i], p);
    for w in 0..8 {
        out[i + w] = below(before, bits[w], p);
        before = bits[w];
    }
    if p != 0 {
        out[i + 8] = below(before, out[i + 8] << p, p);
    }
    out
}

// The bits k places further behind, and zeros before them; those that would stand behind 512 fall out.
pub fn down(words: &[u64; 8], k: usize) -> [u64; 8]
    ensures { bits512 result ≡ take 512 (replicate k 0 ++ bits512 words.now) }
{
    let mut out = [0u64; 8];
    if 511 < k {
        return out;
    }
    let i = k / 64;
    let p = k % 64;
    let mut high: u64 = 0;
    for w in i..8 {
        let low = words[w - i];
        out[w] = below(high, low, p);
        high = low;
    }
    out
}

// The p highest digits of x, at the low end.
fn above(x: u64, p: usize) -> u64
    requires { p < 64 }
    ensures { drop (64 - p) (digits 64 result) ≡ take p (digits 64 x) }
{
    if p == 0 { 0 } else { x >> (64 - p) }
}

// The p lowest digits of high, and behind them the highest of low. As `across` by 64 - p, but for p = 0, where that counts round 64 and answers high.
fn below(high: u64, low: u64, p: usize) -> u64
    requires { p < 64 }
    ensures { digits 64 result ≡ drop (64 - p) (digits 64 high) ++ take (64 - p) (digits 64 low) }
{
    if p == 0 {
        low
    } else {
        high << (64 - p) | low >> p
    }
}

// The machine word i, 0 behind the last.
pub fn word_at(words: &[u64], i: usize) -> u64
    ensures { result ≡ get_or words.now i 0 }
{
    if i < words.len() { words[i] } else { 0 }
}

// The digits of high from the place p on, and behind them the p highest of low; p counts round 64.
pub fn across(high: u64, low: u64, p: usize) -> u64
    ensures { digits 64 result ≡ drop (p % 64) (digits 64 high) ++ take (p % 64) (digits 64 low) }
{
    let k = p % 64;
    if k == 0 {
        high
    } else {
        high << k | low >> (64 - k)
    }
}

// Of the digits of x, which stand at the places from `from` on, those before the place n.
fn top(x: u64, n: usize, from: usize) -> u64
    requires { from < 512 }
    ensures { digits 64 result ≡ take (n - from) (digits 64 x) ++ replicate (64 - (n - from)) 0 }
{
    if from + 64 <= n {
        return x;
    }
    if n <= from {
        return 0;
    }
    x >> (64 - (n - from)) << (64 - (n - from))
}

// The bits from i on, 64 of them or as many as there are, with zeros behind.
fn piece(word: &[u8], i: usize) -> u64
    requires { i < 512 }
    ensures { digits 64 result ≡ take 64 (drop i (lowest word.now)) ++ replicate (64 - (length word.now - i)) 0 }
{
    if i + 64 <= word.len() {
        return full(&word[i..i + 64]);
    }
    if word.len() <= i {
        return 0;
    }
    part(&word[i..])
}

// 64 bits.
fn full(word: &[u8]) -> u64
    requires { length word.now ≡ 64 }
    ensures { digits 64 result ≡ lowest word.now }
{
    let (eights, _) = word.as_chunks::<8>();
    let mut x: u64 = 0;
    for eight in eights {
        x = x << 8 | u64::from(bits::eight(eight));
    }
    x
}

// Fewer than 64 bits, at the high end.
fn part(word: &[u8]) -> u64
    requires { (0 < length word.now) × (length word.now < 64) }
    ensures { digits 64 result ≡ lowest word.now ++ replicate (64 - length word.now) 0 }
{
    let (eights, rest) = word.as_chunks::<8>();
    let mut x: u64 = 0;
    for eight in eights {
        x = x << 8 | u64::from(bits::eight(eight));
    }
    for b in rest {
        x = x << 1 | u64::from(*b % 2);
    }
    x << (64 - word.len())
}
