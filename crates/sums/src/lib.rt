// Document 01's twelve sums. There is no code here: specs/ has the table, proofs/ the one statement over it.
#![tactic(auto)]
