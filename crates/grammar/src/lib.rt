// Laws of the Newick text. No code.
#![tactic(auto)]
