// What the jobs answer (document 01, "Refusal numbers"): accepted, with the counts that the job has, or refused, for a reason at a place.
// Number, place and counts of each answer come from here, for C, the trial program and the report alike.
#![tactic(auto)]

ghost use Rattle.std.specs.Prelude.{◌≡◌};
ghost use Rattle.answers.specs.Answers.{accepted, refused, because, of_written, of_decoded, of_received_a, of_received_b, refusal_at, no_word, no_burst};

// Why a word, a frame, a grid or a state is refused, in the order of the numbers: document 01's, document 02's behind them, and 16, which is ours.
#[derive(Clone, Copy, Debug, PartialEq, Eq)]
pub enum Refusal {
    Unknown,
    WrongLength,
    NoRoom,
    NotABit(usize),
    BadScheme(usize),
    TooManySymbols,
    Occupied(usize),
    StrayPoint(usize),
    Uncorrectable(usize),
    WrongCheck,
    Noise,
    Forged,
}

// What receive A counts: the bits mended, the protected bits that differ, and the bits mended in the worst block.
#[derive(Clone, Copy, Debug, PartialEq, Eq)]
pub struct MendedA {
    pub mended: usize,
    pub protected: usize,
    pub worst: usize,
}

// What receive B counts: the bits mended, and those of the worst block.
#[derive(Clone, Copy, Debug, PartialEq, Eq)]
pub struct MendedB {
    pub mended: usize,
    pub worst: usize,
}

// The entries of a list of places.
pub const PLACES: usize = 16;

// What decode answers of a word, the bits mended or a refusal, and with it the places that it mended, indices in the word: they rise, as many as were
// mended; the other entries are 0.
#[derive(Clone, Copy, Debug, PartialEq, Eq)]
pub struct DecodedWord {
    pub answer: Result<usize, Refusal>,
    pub places: [u16; PLACES],
}

// What receive A answers of a burst, and with it such a list for each half.
#[derive(Clone, Copy, Debug, PartialEq, Eq)]
pub struct ReceivedBurst {
    pub answer: Result<MendedA, Refusal>,
    pub first: [u16; PLACES],
    pub second: [u16; PLACES],
}

// What an answer tells. A count that the job does not have is 0.
#[derive(Clone, Copy, Debug, PartialEq, Eq)]
pub struct Told {
    pub number: u8,
    pub place: usize,
    pub mended: usize,
    pub protected: usize,
    pub worst: usize,
}

// What encode, send A or send B tells.
impl From<Result<(), Refusal>> for Told {
    ghost from_gives = { λ answer told. told ≡ of_written answer };

    fn from(answer: Result<(), Refusal>) -> Told {
        match answer {
            Ok(()) => accepted(0, 0, 0),
            Err(why) => Told::from(why),
        }
    }
}

// What decode tells.
impl From<Result<usize, Refusal>> for Told {
    ghost from_gives = { λ answer told. told ≡ of_decoded answer };

    fn from(answer: Result<usize, Refusal>) -> Told {
        match answer {
            Ok(mended) => accepted(mended, 0, 0),
            Err(why) => Told::from(why),
        }
    }
}

// What receive A tells.
impl From<Result<MendedA, Refusal>> for Told {
    ghost from_gives = { λ answer told. told ≡ of_received_a answer };

    fn from(answer: Result<MendedA, Refusal>) -> Told {
        match answer {
            Ok(counts) => accepted(counts.mended, counts.protected, counts.worst),
            Err(why) => Told::from(why),
        }
    }
}

// What receive B tells.
impl From<Result<MendedB, Refusal>> for Told {
    ghost from_gives = { λ answer told. told ≡ of_received_b answer };

    fn from(answer: Result<MendedB, Refusal>) -> Told {
        match answer {
            Ok(counts) => accepted(counts.mended, 0, counts.worst),
            Err(why) => Told::from(why),
        }
    }
}

// What a refusal tells.
impl From<Refusal> for Told {
    ghost from_gives = { λ why told. told ≡ because why };

    fn from(why: Refusal) -> Told {
        match why {
            Refusal::Unknown => refused(1, 0),
            Refusal::WrongLength => refused(2, 0),
            Refusal::NoRoom => refused(3, 0),
            Refusal::NotABit(index) => refused(4, index),
            Refusal::BadScheme(entry) => refused(5, entry),
            Refusal::TooManySymbols => refused(6, 0),
            Refusal::Occupied(index) => refused(7, index),
            Refusal::StrayPoint(index) => refused(8, index),
            Refusal::Uncorrectable(block) => refused(9, block),
            Refusal::WrongCheck => refused(10, 0),
            Refusal::Noise => refused(11, 0),
            Refusal::Forged => refused(16, 0),
        }
    }
}

// The refusal that a number and a place tell; of a number that no refusal has, that of a forged state.
pub fn refusal_of(number: u64, place: usize) -> Refusal
    ensures { result ≡ refusal_at number place }
{
    match number {
        1 => Refusal::Unknown,
        2 => Refusal::WrongLength,
        3 => Refusal::NoRoom,
        4 => Refusal::NotABit(place),
        5 => Refusal::BadScheme(place),
        6 => Refusal::TooManySymbols,
        7 => Refusal::Occupied(place),
        8 => Refusal::StrayPoint(place),
        9 => Refusal::Uncorrectable(place),
        10 => Refusal::WrongCheck,
        11 => Refusal::Noise,
        _ => Refusal::Forged,
    }
}

// A word that is refused: no place is mended.
pub fn no_word(why: Refusal) -> DecodedWord
    ensures { result ≡ no_word why }
{
    DecodedWord {
        answer: Err(why),
        places: [0; PLACES],
    }
}

// A burst that is refused: no place is mended.
pub fn no_burst(why: Refusal) -> ReceivedBurst
    ensures { result ≡ no_burst why }
{
    ReceivedBurst {
        answer: Err(why),
        first: [0; PLACES],
        second: [0; PLACES],
    }
}

fn accepted(mended: usize, protected: usize, worst: usize) -> Told
    ensures { result ≡ accepted mended protected worst }
{
    Told {
        number: 0,
        place: 0,
        mended,
        protected,
        worst,
    }
}

fn refused(number: u8, place: usize) -> Told
    ensures { result ≡ refused number place }
{
    Told {
        number,
        place,
        mended: 0,
        protected: 0,
        worst: 0,
    }
}
