// What a slice holds that only the entries have written: a state, and the one that the history of the calls gives. No code.
#![tactic(auto)]
