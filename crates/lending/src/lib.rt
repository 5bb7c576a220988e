// A lent buffer that is lent again for a call, and comes back: no code here; proofs/ has the steps of a walk that do it.
#![tactic(auto)]
