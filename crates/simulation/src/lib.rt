// Two runs side by side, whose trees differ in a template's private name: laws about the definition of expansion, in specs/.
#![tactic(auto)]
