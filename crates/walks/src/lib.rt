// Laws for proofs by hand, which walk through the compiled form of a function. No code.
#![tactic(auto)]
