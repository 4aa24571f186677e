// Definitions and laws only: the item table of an accepted reading, and ground 7.
#![tactic(auto)]
