// Demand 3: what holds after any calls on a fresh module, over the definitions of the calls. No code.
#![tactic(auto)]
