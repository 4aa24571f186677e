// Core terms run: the plain evaluator of request L11 stands in specs/.
#![tactic(auto)]
