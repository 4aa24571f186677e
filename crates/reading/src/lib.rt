// Definitions and laws only: what reading means stands in specs/.
#![tactic(auto)]
