// The trees that merges build: no code here; specs/ has the definitions and their laws.
#![tactic(auto)]
