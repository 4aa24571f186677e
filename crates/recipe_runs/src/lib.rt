// A recipe run: its expansion, and the core term run. Definitions and laws stand in specs/.
#![tactic(auto)]
