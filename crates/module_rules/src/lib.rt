// What holds of a state, said once: demand 3's rules, and the form that a lent slice asks for beside them. No code.
#![tactic(auto)]
