// Lists of merges: no code here; specs/ has the definitions and their laws.
#![tactic(auto)]
