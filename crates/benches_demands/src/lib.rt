// Laws only, the roof of the product for several benches: request 8 as one record, over the definitions that its calls meet and over demand three of each bench.
#![tactic(auto)]
