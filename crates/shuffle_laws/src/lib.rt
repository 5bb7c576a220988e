// Laws only: see specs/.
#![tactic(auto)]
