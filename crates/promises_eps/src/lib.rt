// The promises of the EPS context: the demands over its public calls. Definitions and proofs alone.
#![tactic(auto)]
