// What the papers demand: the three demands of document 00, what document 01 says of names, and document 02's requests, each one statement
// over the definitions that the contracts cite. specs/ has the statements, proofs/ their proofs. There is no code here.
#![tactic(auto)]
