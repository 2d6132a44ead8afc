// No code: what this repository promises stands in specs/, and that it holds in proofs/.
#![tactic(auto)]
