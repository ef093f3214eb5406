// Laws only: order lines as text. The format stands once, in specs/Format.antt; what a text tells where a line is looked for in specs/Reading.antt.
#![tactic(auto)]
