// Payload B of HiNoC (ITU-T J.195.2, clause 7.5, as document 01 reads it): what it means to send and to receive it, and what both jobs begin with.
//
//   mode        the three modes
//   plan        the checks 1, 2, 5 and 6, and how many OFDM symbols a frame needs
//   stream      the state of a stream, and whether an opening and steps can give it
#![tactic(auto)]

pub mod mode;
pub mod plan;
pub mod stream;
