// What the gaps of a zone cover, over names as octets, and what the denial of a missing query is: definitions and laws. The functions stand
// in other crates.
#![tactic(auto)]
