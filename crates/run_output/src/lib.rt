// The running program's output is defined in specs/, over the definitions of reading, expansion and running.
#![tactic(auto)]
