// What each call on dictionary numbers tells and leaves: definitions and laws only. The calls themselves stand in `dictionary`.
#![tactic(auto)]
