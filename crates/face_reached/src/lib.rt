// Laws only: the words that calls for C leave are the words of the states that the calls behind them leave (see specs and proofs).
#![tactic(auto)]
