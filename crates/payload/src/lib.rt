// What Payload A and Payload B of HiNoC (ITU-T J.195.2, clauses 7.4 and 7.5, as document 01 reads them) have in common: the scrambler of clause 6.2, also
// far ahead in a frame, what it means that a frame fits the bits received, and the quality of a line (specs/Wire.antt).
#![tactic(auto)]

pub mod ahead;
pub mod scrambler;
