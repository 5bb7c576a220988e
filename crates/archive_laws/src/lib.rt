// The laws of the archive. No code: specs/ has them.
#![tactic(auto)]
