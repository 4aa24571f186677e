// Definitions and laws only: the run of document 01 stands in specs/.
#![tactic(auto)]
