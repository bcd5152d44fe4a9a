// The order and the two walks, as definitions in specs/, and what they mean, in proofs/. No code.
#![tactic(auto)]
