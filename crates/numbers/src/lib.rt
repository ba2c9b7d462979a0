// Document 01's marked numbers ("Numbers to try"), in a single table under a single claim: specs/Table.antt has the table, proofs/ the claim.
// It has no code.
#![tactic(auto)]
