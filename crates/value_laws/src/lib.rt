// No code: the laws of protocol's rules of values, over any description of nodes, stand in proofs/.
#![tactic(auto)]
