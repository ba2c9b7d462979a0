// Noisy points of HiNoC, decided to the nearest (document 02, item 1): what deciding promises for Payload A and for Payload B (specs/), and its theorems
// (proofs/): what receiving says of points that were decided, and how far points may be moved until something changes. It has no code: the jobs stand in
// `decider`.
#![tactic(auto)]
