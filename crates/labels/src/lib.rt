// The versions of the format compared: statements and their proofs, and no code.
#![tactic(auto)]
