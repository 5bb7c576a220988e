// The laws of the clade table: no code here; specs/ has the theorems.
#![tactic(auto)]
