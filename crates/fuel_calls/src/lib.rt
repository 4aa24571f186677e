// Laws only: request L9 for two calls of the expansion service stands in specs/.
#![tactic(auto)]
