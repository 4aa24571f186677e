// Definitions only: what the comparing program prints, and its known outputs, stand in specs/.
#![tactic(auto)]
