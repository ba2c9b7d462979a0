// The places at which the locator vanishes: each zero that roots finds is an element; its logarithm says which place of the word it stands for.
ghost use Rattle.std.specs.Prelude.{◌≡◌, List, ℕ, suc, ◌+◌, ◌<◌, ◌≤◌, length, take, set};
ghost use Rattle.bits.specs.Words.{digits};
ghost use Rattle.packed.specs.Packed.{bits512, padded};
ghost use Rattle.decoder.specs.Locators.{Ends, Turned};
ghost use Rattle.decoder.specs.Marks.{root_at, Exponent, Below, HasRow, Placed, ones_of, ones_from, Listing, one_more, all_more};

// n < 512 stands in four contracts, from flip down to mark_root: a type of one number, for it alone, would be no plainer.
use answers::PLACES;

// The places that are flipped in a copy: how many, and the list of the first 16 (document 01's form of a list of places).
#[derive(Clone, Copy)]
pub struct Flips {
    pub count: usize,
    pub places: [u16; PLACES],
}

// A copy of a packed word with places flipped.
#[derive(Clone, Copy)]
pub struct Flipped {
    pub copy: [u64; 8],
    pub flips: Flips,
}

// Copies the word of n bits, with each place flipped at which the locator vanishes; place p of n stands for a^(n-1-p), whose inverse is a^(512-n+p).
pub(crate) fn flip(locator: &[u16; 34], len: usize, n: usize, words: &[u64; 8]) -> Flipped
    requires { (len ≤ 32) × Ends locator.now len × (n < 512) × (bits512 words.now ≡ padded (take n (bits512 words.now))) }
    ensures { Turned locator.now len (take n (bits512 words.now)) (take n (bits512 result.copy)) result.flips × (bits512 result.copy ≡ padded (take n (bits512 result.copy))) }
{
    let zeros = roots::zeros(locator, len);
    let marks = marked(&zeros, n);
    Flipped {
        copy: packed::xor(words, &marks),
        flips: listing(&marks),
    }
}

// Marks, packed, for the places of a word of n bits whose elements are among the zeros. The zeros are no packed word: a bit for each element, the
// lowest first.
fn marked(zeros: &[u64; 8], n: usize) -> [u64; 8]
    requires { n < 512 }
    ensures { Placed zeros.now n 512 result }
{
    let mut out = [0u64; 8];
    // w is read for the row's base too.
    for w in 0..8 {
        mark_row(zeros[w], 64 * w, n, &mut out);
    }
    out
}

// Marks the places of the elements from base on whose bits are set in x, the lowest first.
fn mark_row(x: u64, base: usize, n: usize, out: &mut [u64; 8])
    requires { (base + 64 ≤ 512) × (n < 512) }
    ensures { (z : List ℕ) → HasRow z base x → Placed z n base out.old → Placed z n (base + 64) out.new }
{
    let mut rest = x;
    let mut l: usize = 0;
    // A turn for each bit that is set, and none for the others.
    while rest != 0 {
        let k = below(rest);
        mark_root(base + l + k, n, out);
        rest = (rest >> k) / 2;
        l = l + k + 1;
    }
}

// How many zeros stand below the lowest 1 digit.
fn below(x: u64) -> usize
    requires { 0 < x }
    ensures { Below x result }
{
    x.trailing_zeros() as usize
}

// Marks the place of the element v, if the word has it.
fn mark_root(v: usize, n: usize, out: &mut [u64; 8])
    requires { (v < 512) × (n < 512) }
    ensures { (z : List ℕ) → root_at z v ≡ 1 → Placed z n v out.old → Placed z n (suc v) out.new }
{
    let g = exponent(v);
    if 512 - n <= g {
        mark(out, g + n - 512);
    }
}

// The exponent from 1 to 511 of the element v; 0 for v = 0, which is below those of every word: so one test tells the caller that the word has no such place.
fn exponent(v: usize) -> usize
    requires { v < 512 }
    ensures { Exponent v result }
{
    match field::logarithm(v as u16) {
        Some(0) => 511,
        Some(e) => e,
        None => 0,
    }
}

// Sets the bit of the place p.
fn mark(out: &mut [u64; 8], p: usize)
    requires { p < 512 }
    ensures { length out.old ≡ 8 → (length out.new ≡ 8) × (bits512 out.new ≡ set (bits512 out.old) p 1) }
{
    out[p / 64] |= 0x8000_0000_0000_0000 >> (p % 64);
}

// The places marked, how many and the list of the first 16.
fn listing(marks: &[u64; 8]) -> Flips
    ensures { Listing (ones_of (bits512 marks.now)) result }
{
    let mut places = [0u16; PLACES];
    let mut count: usize = 0;
    // w is read for the first place too.
    for w in 0..8 {
        count = listed_in(marks[w], 64 * w, count, &mut places);
    }
    Flips { count, places }
}

// And those that stand in x, whose highest digit is the place `from`, behind the first `before`; how many there are then.
fn listed_in(x: u64, from: usize, before: usize, places: &mut [u16; PLACES]) -> usize
    requires { (from + 64 ≤ 512) × (before ≤ from) }
    ensures { record { count = result; places = places.new } ≡ all_more (record { count = before; places = places.old }) (ones_from from (digits 64 x)) }
{
    let mut count = before;
    let mut rest = x;
    // A turn for each bit that is set, and none for the others.
    while rest != 0 {
        let lead = rest.leading_zeros() as usize;
        put_place(places, count, from + lead);
        count += 1;
        rest ^= 0x8000_0000_0000_0000 >> lead;
    }
    count
}

// One place more, behind those listed, where there is room. The count is apart from the places, which are lent: it goes on where they are full.
fn put_place(places: &mut [u16; PLACES], count: usize, i: usize)
    requires { i < 512 }
    ensures { record { count = count + 1; places = places.new } ≡ one_more (record { count = count; places = places.old }) i }
{
    if count < PLACES {
        places[count] = i as u16;
    }
}
