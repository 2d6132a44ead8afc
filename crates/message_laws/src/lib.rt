// No code: what holds of reading and writing messages together stands in proofs/.
#![tactic(auto)]
