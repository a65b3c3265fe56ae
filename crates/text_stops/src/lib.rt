// Where a text that does not fit the grammar stops fitting it: definitions and proofs alone, no code.
#![tactic(auto)]
