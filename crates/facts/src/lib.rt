// Facts on lists and truth values that the kit's libraries lack, as laws: no code, and nothing about octets or names.
#![tactic(auto)]
