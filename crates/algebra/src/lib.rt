// The mathematics that the decoder rests on, over any field of characteristic 2.
// It has no code: proofs/ is the whole crate, a file for each subject. Nothing here knows of GF(512), of bits or of words of a code.
#![tactic(auto)]
