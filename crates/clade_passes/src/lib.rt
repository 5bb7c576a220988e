// The clade table by passes over an archive: no code here; specs/ has the definitions and their laws.
#![tactic(auto)]
