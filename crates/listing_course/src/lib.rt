// Laws only: the course of a pattern, which is what each level chose on the way to it; the move beside the pattern, read off its course; the steps A and B, and
// back, in one lent buffer; and a pattern with its inverse.
#![tactic(auto)]
