// No code: what a journal replays as, stated in specs/ and proved in proofs/.
#![tactic(auto)]
