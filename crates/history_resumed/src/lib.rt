// Demand 3 counted from what was told before: definitions and theorems, and no code.
#![tactic(auto)]
