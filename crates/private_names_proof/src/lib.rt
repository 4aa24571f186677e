// Private names of templates do not show: the proof, in specs/, of what crate private_names states.
#![tactic(auto)]
