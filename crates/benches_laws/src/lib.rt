// Laws only: one full circuit of the patterns split over several benches, and the benches' counts added up (request 8).
#![tactic(auto)]
