// What a gap of a zone covers, as definitions and laws over labels. The functions stand in the crates above.
#![tactic(auto)]
