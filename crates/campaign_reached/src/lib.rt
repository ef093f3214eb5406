// Laws only: the states that calls on an accepted plan leave. What holds of them is what the printer, the calls for C and the demands rest on.
#![tactic(auto)]
