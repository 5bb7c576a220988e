// Trees, their leaves, clades and forms: no code here; specs/ has the definitions and their laws.
#![tactic(auto)]
