// Searches and counts over ticks and over classes, and their laws: definitions and proofs that the analysis stands on, and no code.
#![tactic(auto)]
