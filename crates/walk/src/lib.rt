// Walks over a file: definitions and laws, and no code.
#![tactic(auto)]
