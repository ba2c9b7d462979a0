// OFDM symbols of HiNoC (ITU-T J.195.2, equation 4, as document 01 reads it): two lists of levels, I and Q, 256 of each to an OFDM symbol.
// It knows points, and no code, no frame and no mode. Every public function answers whatever comes in.
// The two lists are two parameters, as they are lent and as each definition takes them: a struct of both would be opened again in every clause.
//
//   grid      which sub-carrier holds which of the 210 points, levels put there, and sub-carriers that must be empty
//   scheme    OFDM symbols by a scheme: the checks 7 and 8, their bits, packed, and the points of packed bits
//   phases    the same by DQPSK, with bits as elements
//   checks    the checks 7 and 8, whichever way points are read
//   quick     a quick look before the checks
//   growing   bits of points put one behind the other
//   spreading points of bits put onto sub-carriers
#![tactic(auto)]

mod checks;
pub mod grid;
mod growing;
pub mod phases;
mod quick;
pub mod scheme;
mod spreading;

// What a sub-carrier holds: the constellation symbol s, numbered from 1, or nothing. Document 01 names both, "an s index or empty", and so this is no Option.
#[derive(Debug, Clone, Copy, PartialEq, Eq)]
pub enum Carrier {
    Holds(usize),
    Empty,
}

// What is wrong with OFDM symbols: the grid index of an unavailable sub-carrier that is occupied, or of a point that is none of its constellation.
#[derive(Debug, Clone, Copy, PartialEq, Eq)]
pub enum Fault {
    Occupied(usize),
    StrayPoint(usize),
}
