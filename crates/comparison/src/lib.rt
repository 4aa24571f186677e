// Definitions and laws only: the supplier's texts, and what it is to be our term, stand in specs/.
#![tactic(auto)]
