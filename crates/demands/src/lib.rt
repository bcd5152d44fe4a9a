// The three demands as theorems over the calls that users make, and the worked cases: no code.
#![tactic(auto)]
