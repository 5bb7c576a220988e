// What follows from the rules of the packed record. No code.
#![tactic(auto)]
