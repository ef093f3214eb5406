// What each call for C tells and leaves: laws only, and the calls themselves stand in `face`.
#![tactic(auto)]
