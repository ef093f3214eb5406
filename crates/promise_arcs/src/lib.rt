// Laws only: the ranks of a circuit that a plan names, each once, and the gaps that it leaves (request 1); and how the gaps are found without a walk.
#![tactic(auto)]
