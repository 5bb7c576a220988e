// Small laws that many crates need: no code here.
#![tactic(auto)]
