// Laws only: demand 3 for two calls of the expansion service stands in specs/.
#![tactic(auto)]
