// The sentences of the papers about a run, each a law by part number, byte place, clock or variable:
// definitions and proofs alone, no code.
#![tactic(auto)]
