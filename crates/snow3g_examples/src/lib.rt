// No code: worked examples of the specification of SNOW 3G, UEA2 and UIA2.
#![tactic(auto)]
