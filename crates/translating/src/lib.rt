// Ranks, dictionary numbers and patterns said in one another, as text: definitions and laws only. The code stands in `translating_line` and `translating_stream`.
#![tactic(auto)]
