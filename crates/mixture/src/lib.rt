// Calls by value and calls in place on one context, in any mixture. Definitions and proofs alone.
#![tactic(auto)]
