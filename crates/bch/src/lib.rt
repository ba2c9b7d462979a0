// The three truncated BCH codes of clause 6.3: what encode and decode promise, and what both stand on.
//
// A word is a slice of elements 0 or 1, coefficients of a polynomial over GF(2), highest power first. A codeword is k information bits and
// then the remainder of information times x^(n-k) by the generator.
//
//   code       the three codes as the code holds them
//   checks     the checks 1, 2, 3 and 4
//   register   remainders, in three machine words
//   tables     remainders of four digits by each generator, from which longer ones are added up
#![tactic(auto)]

pub mod checks;
pub mod code;
pub mod register;
mod tables;
