// The modes of Payload A, clause 7.4.
ghost use Rattle.std.specs.Prelude.{◌≡◌};
ghost use Rattle.payload_a.specs.CodedA.{bytes_a};
ghost use Rattle.payload_a.specs.Modes.{number_of, Known};

use answers::Refusal;

// How a frame goes: as it is, or as two codewords of code 3. The modes stand in the order of their numbers, from 0.
#[derive(Clone, Copy, Debug, PartialEq, Eq)]
pub enum ModeA {
    Uncoded,
    Coded,
}

// The mode that has a number.
impl TryFrom<u8> for ModeA {
    type Error = Refusal;

    ghost try_from_gives = { Known };

    fn try_from(number: u8) -> Result<ModeA, Refusal> {
        match number {
            0 => Ok(ModeA::Uncoded),
            1 => Ok(ModeA::Coded),
            _ => Err(Refusal::Unknown),
        }
    }
}

impl ModeA {
    // The bytes of a frame.
    pub fn bytes(self) -> usize
        ensures { result ≡ bytes_a (number_of self) }
    {
        match self {
            ModeA::Uncoded => 94,
            ModeA::Coded => 58,
        }
    }
}
