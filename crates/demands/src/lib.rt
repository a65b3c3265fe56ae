// The buyer's three demands, each one statement with one theorem, of all that the operations' contracts promise:
// definitions and proofs alone, no code.
#![tactic(auto)]
