// No code: worked examples of the specifications of ZUC, 128-EEA3 and 128-EIA3.
#![tactic(auto)]
