// Zones: members and their neighbours, as definitions and laws. The functions stand in the crates above.
#![tactic(auto)]
