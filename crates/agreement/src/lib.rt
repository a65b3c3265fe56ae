// The unfolding of a program's tree and its agreement with the stepping of its table: definitions
// and proofs alone, no code.
#![tactic(auto)]
