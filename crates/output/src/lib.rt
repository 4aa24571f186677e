// Definitions only: the recipes of document 01 that are proved from the definitions of all services stand in specs/.
#![tactic(auto)]
