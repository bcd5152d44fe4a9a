// Valid tables and the first fault, as definitions in specs/, and their laws, in proofs/. No code.
#![tactic(auto)]
