// No code: what holds of writing and listing values together stands in proofs/.
#![tactic(auto)]
