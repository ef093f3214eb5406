// Laws only: the text of the command for several benches, what it reads and what it prints (request 8; docs/BENCHES.md).
#![tactic(auto)]
