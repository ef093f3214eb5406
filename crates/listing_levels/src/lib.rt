// How the rank of a pattern comes about, level by level, for every number of ports. There is no code here: specs/ has the definitions, proofs/ the laws.
#![tactic(auto)]
