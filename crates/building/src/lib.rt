// The laws of the building rule: definitions and theorems only, no code.
#![tactic(auto)]
