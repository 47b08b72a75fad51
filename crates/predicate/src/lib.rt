// Laws of tests, and of the numbers that pass one. Definitions and proofs alone: no function is called.
#![tactic(auto)]
