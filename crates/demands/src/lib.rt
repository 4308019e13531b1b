// The three demands on the library, of what its public calls answer and write: statements and their proofs, and no code.
#![tactic(auto)]
