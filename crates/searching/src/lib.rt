// The first place at which something is wrong, of any number of places: no code here; specs/ has the definitions and their laws.
#![tactic(auto)]
