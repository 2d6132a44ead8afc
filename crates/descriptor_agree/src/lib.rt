// No code: that the definitions by which the code reads a descriptor give what protocol's give, for every descriptor.
#![tactic(auto)]
