// Laws only: what the programs above the services share stands in specs/.
#![tactic(auto)]
