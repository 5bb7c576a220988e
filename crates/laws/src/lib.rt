// The laws of the rules: no code here; specs/ has the theorems.
#![tactic(auto)]
