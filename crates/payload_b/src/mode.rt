// The modes of Payload B: how the bits of a frame are sent.
ghost use Rattle.std.specs.Prelude.{◌≡◌};
ghost use Rattle.payload_b.specs.CodedB.{block_bytes, block_bits};
ghost use Rattle.payload_b.specs.PromiseB.{mends_b};
ghost use Rattle.payload_b.specs.ModesB.{number_of, Numbers};

use answers::Refusal;

// Uncoded, each byte as a block of its own; or in blocks of the code (508,472) or of (504,432).
#[derive(Clone, Copy, Debug, PartialEq, Eq)]
pub enum ModeB {
    Uncoded,
    Code1,
    Code2,
}

impl TryFrom<u8> for ModeB {
    type Error = Refusal;

    ghost try_from_gives = { Numbers };

    fn try_from(number: u8) -> Result<Self, Refusal> {
        match number {
            0 => Ok(ModeB::Uncoded),
            1 => Ok(ModeB::Code1),
            2 => Ok(ModeB::Code2),
            _ => Err(Refusal::Unknown),
        }
    }
}

impl ModeB {
    // The number of its code, as encoder and decoder take it; 0, which no code has, where it is uncoded. No Option: both callers ask for a coded mode's alone.
    pub fn code(self) -> u8
        ensures { result ≡ number_of self }
    {
        match self {
            ModeB::Uncoded => 0,
            ModeB::Code1 => 1,
            ModeB::Code2 => 2,
        }
    }

    // The bytes of a block.
    pub fn block_bytes(self) -> usize
        ensures { result ≡ block_bytes (number_of self) }
    {
        match self {
            ModeB::Uncoded => 1,
            ModeB::Code1 => 59,
            ModeB::Code2 => 54,
        }
    }

    // The bits sent for a block.
    pub fn block_bits(self) -> usize
        ensures { result ≡ block_bits (number_of self) }
    {
        match self {
            ModeB::Uncoded => 8,
            ModeB::Code1 => 508,
            ModeB::Code2 => 504,
        }
    }

    // How many bits are mended in a block.
    pub fn mends(self) -> usize
        ensures { result ≡ mends_b (number_of self) }
    {
        match self {
            ModeB::Uncoded => 0,
            ModeB::Code1 => 4,
            ModeB::Code2 => 8,
        }
    }
}
