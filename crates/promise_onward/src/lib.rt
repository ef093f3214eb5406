// Laws only: a saved campaign taken up again after a power cut. specs/ has what that is and what a cut leaves, proofs/ the laws.
#![tactic(auto)]
