// The scrambler's register far into a frame, at once: it comes round, and a table has it at every step of one round.
ghost use Rattle.std.specs.Prelude.{◌≡◌, ◌*◌, ◌≤◌, ◌<◌};
ghost use Rattle.payload.specs.Scrambler.{start, register_after};

use crate::scrambler;

// After so many bits the register is what it was.
const PERIOD: usize = 32767;

// So many bits lie from one entry of the table to the next.
const STEP: usize = 128;

// The scrambler's register after so many bytes of a frame.
pub fn register_after(bytes: usize) -> u16
    ensures { result ≡ register_after (8 * bytes) start }
{
    let bits = bytes % PERIOD * 8 % PERIOD;
    shift_bits(entry(bits / STEP), bits % STEP)
}

// The register after so many steps, as the table has it.
fn entry(steps: usize) -> u16
    requires { steps < 256 }
    ensures { (result ≡ register_after (128 * steps) start) × (result < 0x8000) }
{
    REGISTERS[steps]
}

// So many formed bits are shifted in, fourteen at a time.
fn shift_bits(register: u16, bits: usize) -> u16
    requires { register < 0x8000 }
    ensures { result ≡ register_after bits register }
{
    let mut s = register;
    for _ in 0..bits / 14 {
        s = scrambler::shift14(s);
    }
    shift_few(s, bits % 14)
}

// At most fourteen formed bits are shifted in.
fn shift_few(register: u16, bits: usize) -> u16
    requires { (register < 0x8000) × (bits ≤ 14) }
    ensures { result ≡ register_after bits register }
{
    (register << bits) % 0x8000 + (scrambler::form14(register) >> (14 - bits))
}

// The register at the start of a frame, and a step after the entry before.
const REGISTERS: [u16; 256] = [
    9432, 520, 1084, 9360, 19385, 44, 11496, 664, 5983, 11440, 23369, 4719, 526, 552, 9468, 9936,
    1588, 8364, 28457, 19349, 11460, 11888, 5575, 15343, 30713, 18726, 4193, 38, 9940, 556, 8420,
    9880, 20357, 9404, 26449, 692, 15287, 11816, 19478, 16095, 22855, 4167, 9970, 9464, 8904, 1660,
    26909, 27449, 17389, 26085, 14595, 5535, 25150, 29385, 26520, 18688, 14005, 522, 1584, 9396,
    28513, 548, 10452, 9736, 23782, 11420, 30625, 4343, 5457, 11928, 32693, 13503, 1082, 8836,
    19413, 27973, 10992, 3804, 31470, 28794, 23357, 26454, 1446, 15305, 20781, 19210, 12421, 9918,
    26961, 9872, 18357, 9260, 29746, 2708, 11079, 15467, 25328, 15983, 27364, 6695, 31631, 5691,
    20463, 20417, 24869, 25497, 20510, 32422, 8659, 5932, 24219, 23711, 21643, 28867, 25000, 28084,
    22996, 46, 12004, 700, 13191, 11960, 24437, 14079, 18871, 516, 2068, 9288, 4459, 3100, 13408,
    23034, 11978, 11352, 12603, 7487, 29133, 27018, 32584, 19379, 2576, 11356, 13603, 7543, 14460,
    28058, 30512, 658, 7523, 11268, 27890, 6215, 5826, 13563, 16803, 9804, 6527, 10324, 9483,
    21990, 6826, 30114, 8177, 12647, 16630, 29877, 3717, 8761, 30040, 26607, 16179, 12587, 3423,
    28909, 20300, 28424, 27219, 11926, 29073, 13379, 31280, 11452, 22369, 4791, 22748, 3608, 15476,
    32178, 16289, 8260, 1371, 17605, 24327, 17874, 20083, 22156, 31709, 17878, 19051, 22212, 12908,
    16838, 16915, 8165, 9503, 16798, 7106, 6869, 2977, 6399, 11601, 15883, 4029, 7343, 25768,
    29610, 981, 24054, 15098, 25729, 23132, 279, 4468, 4958, 13742, 4954, 12726, 4882, 30727, 5890,
    28799, 24099, 26380, 24187, 16093, 23371, 4195, 554, 9968, 9972, 8940, 8868, 27413, 28421,
    26493, 11868, 14639, 14711, 24742, 26006, 19240, 4681, 9434, 4, 1048, 72,
];
