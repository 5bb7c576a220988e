// When a call accepts its input, when it refuses it, and what comes back: no code here; specs/ has the theorems.
#![tactic(auto)]
