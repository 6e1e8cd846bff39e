// Sorting keys of names, as definitions and laws: the plain byte order of keys is the canonical order of names, and a key has one name. The
// functions that write and read them stand in the crates above.
#![tactic(auto)]
