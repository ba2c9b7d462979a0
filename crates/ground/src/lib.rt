// What the floors above stand on: the first element that a test finds, and laws of it, of sums without carries, and of tests that the checker
// computes over whole tables. It has no code: specs/ and proofs/ are the whole crate, a file for each subject.
#![tactic(auto)]
