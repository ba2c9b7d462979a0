// The three codes as the code holds them: the generator stands at the top of a register, without its highest digit.
ghost use Rattle.std.specs.Prelude.{◌≡◌};
ghost use Rattle.bch.specs.Held.{Holds, code_of, size_of, table_of};

use crate::register::Register;
use crate::tables::{TABLE1, TABLE2, TABLE3};

#[derive(Clone, Copy)]
pub struct Held {
    pub n: usize,
    pub k: usize,
    pub t: usize,
    pub generator: Register,
}

impl Held {
    // How many bits a word should have: a whole one, or the information alone.
    pub(crate) fn size(&self, whole: bool) -> usize
        ensures { result ≡ size_of whole (code_of self.now) }
    {
        if whole { self.n } else { self.k }
    }

    // The remainders by the generator that words are taken in by. A call of its own: in line, the compiler would keep the three addresses as data that can be
    // written, and the archive for C is to have none.
    #[inline(never)]
    pub fn table(&self) -> &'static [u64; 192]
        ensures { result.now ≡ table_of self.now }
    {
        match self.t {
            4 => &TABLE1,
            8 => &TABLE2,
            _ => &TABLE3,
        }
    }
}

// (508, 472), mends 4.
const CODE1: Held = Held {
    n: 508,
    k: 472,
    t: 4,
    generator: Register {
        high: 0xcc2b_989a_1000_0000,
        mid: 0x0000_0000_0000_0000,
        low: 0x0000_0000_0000_0000,
    },
};

// (504, 432), mends 8.
const CODE2: Held = Held {
    n: 504,
    k: 432,
    t: 8,
    generator: Register {
        high: 0xb8ba_069b_8b1f_fe26,
        mid: 0xe500_0000_0000_0000,
        low: 0x0000_0000_0000_0000,
    },
};

// (392, 248), mends 16.
const CODE3: Held = Held {
    n: 392,
    k: 248,
    t: 16,
    generator: Register {
        high: 0x2b6b_d054_5db3_4c1e,
        mid: 0x01d5_296e_58c8_ed27,
        low: 0x01ad_0000_0000_0000,
    },
};

// The code of a number, if there is one. Any byte may come in, from C too, so it is asked for by number.
pub fn of_number(code: u8) -> Option<Held>
    ensures { Holds code result }
{
    match code {
        1 => Some(CODE1),
        2 => Some(CODE2),
        3 => Some(CODE3),
        _ => None,
    }
}
