// Why a pattern has its rank, as text; and for a bad pattern its refusal and what is wrong, in words. There is no code here: specs/ has the definitions,
// proofs/ the laws.
#![tactic(auto)]
