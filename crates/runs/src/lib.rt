// Document 01's runs, as definitions and theorems in specs/ and proofs/: what the bench has to do. There is no code here.
#![tactic(auto)]
