// The promises: the three demands over the public calls. Definitions and proofs alone.
#![tactic(auto)]
