// A message that arrives on the other connection than the one that sealed it, among all other calls. Definitions and proofs alone.
#![tactic(auto)]
