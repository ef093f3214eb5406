// The customer's three demands, of the public calls and of the bytes that they write. There is no code here: specs/ has the definitions, proofs/ the theorems.
#![tactic(auto)]
