// No code: definitions and laws about numbers, Bools and lists that several crates need.
#![tactic(auto)]
