// What was written is read: one fact for every message of 004 clause 9.2, over the definitions of the readers and the writers. No code.
#![tactic(auto)]
