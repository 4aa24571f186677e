// Private names of templates do not show: demand 3 about the definition of expansion, stated and witnessed in specs/.
#![tactic(auto)]
