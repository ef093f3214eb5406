// The cases that the paper marks to be proved, as one table with one theorem. There is no code here: specs/ has the table, proofs/ the theorem.
#![tactic(auto)]
