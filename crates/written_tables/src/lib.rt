// Tables that are written, and rows as numbers: no code here; specs/ has the definitions and their laws.
#![tactic(auto)]
