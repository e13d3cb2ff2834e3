#![tactic(auto)]

// Functions on lists and bytes that the contracts of the crates above are made of, and their laws: no code.
