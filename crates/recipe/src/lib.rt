// Definitions only: names, trees and the item table stand in specs/.
#![tactic(auto)]
