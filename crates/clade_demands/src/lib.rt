// What is proved of the clade table over its public promise. No code.
#![tactic(auto)]
