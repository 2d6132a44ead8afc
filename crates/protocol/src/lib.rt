// The rules as definitions, in specs/: no code.
#![tactic(auto)]
