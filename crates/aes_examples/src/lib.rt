// Worked examples of the standards and facts of the field, as theorems that compute: specs/ states them, proofs/ has their proofs.
#![tactic(auto)]
