// Words, one bit to an element: their digits, the number that they are the digits of, and the bits of a frame's bytes, most significant first.
// It knows no code, no point and no payload; what stands above has its words from here. Every function answers whatever comes in.
#![tactic(auto)]

ghost use Rattle.std.specs.Prelude.{◌≡◌, ◌*◌, ◌%◌, ◌^◌, ◌<◌, ◌≤◌, ◌++◌, length, drop};
ghost use Rattle.bits.specs.Words.{Bits, lowest, digits, first_bad};
ghost use Rattle.bits.specs.Bytes.{bits_of, as_number, bytes_of, bits_put, bytes_put};

// The index of the first element that is neither 0 nor 1; the length where there is none. Not an Option: that the answer is a place is the contract's word,
// `first_bad`, of which refusals and theorems above speak.
pub fn first_bad(word: &[u8]) -> usize
    ensures { result ≡ first_bad word.now }
{
    if any(word) < 2 {
        return word.len();
    }
    word.iter().position(|b| 1 < *b).unwrap_or(word.len())
}

// Every binary digit that some element has: where that is below 2, all are bits. It takes no branch, so that many elements go at once.
fn any(word: &[u8]) -> u8
    ensures { result < 2 → Bits word.now }
{
    let mut all: u8 = 0;
    for b in word {
        all |= *b;
    }
    all
}

// The low binary digits of x, as many as out has places.
pub fn put_digits(x: u32, out: &mut [u8])
    ensures { out.new ≡ digits (length out.old) x }
{
    let mut rest = x;
    for i in (0..out.len()).rev() {
        out[i] = (rest % 2) as u8;
        rest /= 2;
    }
}

// The number that bits are the digits of, modulo 2^32.
pub fn as_number(bits: &[u8]) -> u32
    ensures { result ≡ as_number bits.now % 2 ^ 32 }
{
    let mut x: u32 = 0;
    for b in bits {
        x = x % 0x8000_0000 * 2 + u32::from(*b % 2);
    }
    x
}

// The number that the lowest digits of eight elements are the digits of, the first the highest.
pub fn eight(bits: &[u8; 8]) -> u8
    ensures { digits 8 result ≡ lowest bits.now }
{
    // A digit in each byte, the first the lowest. Each digit of the factor moves one of them to its place among the highest eight of the product.
    let ones = u64::from_le_bytes(*bits) & 0x0101_0101_0101_0101;
    (ones.wrapping_mul(0x8040_2010_0804_0201) >> 56) as u8
}

// The bits of a frame, where out has just room for them.
pub fn put_bits(frame: &[u8], out: &mut [u8])
    ensures { out.new ≡ bits_put frame.now out.old }
{
    if out.len() % 8 != 0 {
        return;
    }
    if out.len() / 8 != frame.len() {
        return;
    }
    write_bits(frame, out);
}

// The frame of bits, where out has just room for it.
pub fn put_bytes(bits: &[u8], out: &mut [u8])
    ensures { out.new ≡ bytes_put bits.now out.old }
{
    if bits.len() % 8 != 0 {
        return;
    }
    if bits.len() / 8 != out.len() {
        return;
    }
    write_bytes(bits, out);
}

// A list put at the front of another, where there is room for it. A loop of its own, so that the archive asks for no memmove.
pub fn put_front(from: &[u8], to: &mut [u8])
    ensures there { length from.now ≤ length to.old → to.new ≡ from.now ++ drop (length from.now) to.old }
    ensures no_room { length to.old < length from.now → to.new ≡ to.old }
{
    if to.len() < from.len() {
        return;
    }
    for k in 0..from.len() {
        to[k] = from[k];
    }
}

fn write_bits(frame: &[u8], out: &mut [u8])
    requires { length out.old ≡ 8 * length frame.now }
    ensures { out.new ≡ bits_of frame.now }
{
    for i in 0..frame.len() {
        let at = i * 8;
        put_digits(u32::from(frame[i]), &mut out[at..at + 8]);
    }
}

fn write_bytes(bits: &[u8], out: &mut [u8])
    requires { length bits.now ≡ 8 * length out.old }
    ensures { out.new ≡ bytes_of (length out.old) bits.now }
{
    let (eights, _) = bits.as_chunks::<8>();
    for i in 0..out.len() {
        out[i] = eight(&eights[i]);
    }
}
