// No code: what holds of the intake, for every cut of the bytes, stands in proofs/.
#![tactic(auto)]
