// What a call of the expansion service left, run: stated and proved in specs/ from that service's promise alone.
#![tactic(auto)]
