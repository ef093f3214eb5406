// The list of patterns and its laws, for every number of ports. There is no code here: specs/ has the definitions, proofs/ the laws.
#![tactic(auto)]
