// The three demands: no code here; proofs/ has the theorems, and specs/Lib.antt is the page to read.
#![tactic(auto)]
