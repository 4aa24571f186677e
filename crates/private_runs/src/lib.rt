// Private names of templates do not show where core terms are run: stated and proved in specs/.
#![tactic(auto)]
