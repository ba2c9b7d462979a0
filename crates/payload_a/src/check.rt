// The frame check of clause 7.4.2, as request 6 of document 02 reads it. (bch's register takes bits in by the same rule, in 192 digits: a trait over both
// widths would save two short functions and cost their laws in general.)
ghost use Rattle.std.specs.Prelude.{◌≡◌, ◌<◌};
ghost use Rattle.bits.specs.Words.{lowest, digits};
ghost use Rattle.bits.specs.Remainders.{step, remainder_from};
ghost use Rattle.payload_a.specs.Check.{check_polynomial, check_of};

// Equation 10 without x^32.
const POLYNOMIAL: u32 = 0x04c1_1db7;

// What the register starts with, and what inverts the result.
const ALL_ONES: u32 = 0xffff_ffff;

// The remainders of the sixteen words of four bits, and of the same with four zeros behind.
const LOWS: [u32; 16] = [
    0x0000_0000,
    0x04c1_1db7,
    0x0982_3b6e,
    0x0d43_26d9,
    0x1304_76dc,
    0x17c5_6b6b,
    0x1a86_4db2,
    0x1e47_5005,
    0x2608_edb8,
    0x22c9_f00f,
    0x2f8a_d6d6,
    0x2b4b_cb61,
    0x350c_9b64,
    0x31cd_86d3,
    0x3c8e_a00a,
    0x384f_bdbd,
];

const HIGHS: [u32; 16] = [
    0x0000_0000,
    0x4c11_db70,
    0x9823_b6e0,
    0xd432_6d90,
    0x3486_7077,
    0x7897_ab07,
    0xaca5_c697,
    0xe0b4_1de7,
    0x690c_e0ee,
    0x251d_3b9e,
    0xf12f_560e,
    0xbd3e_8d7e,
    0x5d8a_9099,
    0x119b_4be9,
    0xc5a9_2679,
    0x89b8_fd09,
];

// The check of a message, of which each element counts as its lowest binary digit.
pub fn check_of(message: &[u8]) -> u32
    ensures { result ≡ check_of (lowest message.now) }
{
    let (eights, rest) = message.as_chunks::<8>();
    let mut register = ALL_ONES;
    for word in eights {
        register = take_eight(register, bits::eight(word));
    }
    for element in rest {
        register = take_in(register, *element % 2);
    }
    register ^ ALL_ONES
}

// The register takes in the eight bits that b has as digits: what falls out of it, with those added, leaves a remainder, which the two tables have.
fn take_eight(register: u32, b: u8) -> u32
    ensures { result ≡ remainder_from 32 check_polynomial register (digits 8 b) }
{
    let at = (register >> 24 ^ u32::from(b)) as usize;
    register << 8 ^ HIGHS[at / 16] ^ LOWS[at % 16]
}

// The register takes in one bit.
fn take_in(register: u32, b: u8) -> u32
    requires { b < 2 }
    ensures { result ≡ step 32 check_polynomial register b }
{
    let moved = register << 1;
    if register >> 31 == u32::from(b) {
        moved
    } else {
        moved ^ POLYNOMIAL
    }
}
