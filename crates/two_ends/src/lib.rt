// Two ends and a bad channel: what holds between a sender and a receiver. Definitions and proofs alone.
#![tactic(auto)]
