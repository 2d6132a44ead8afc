// No code: what is promised of the text check with the step over plain bytes (L5) stands in specs/, and that it holds in proofs/.
#![tactic(auto)]
