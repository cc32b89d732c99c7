// Laws about reading, which the code's proofs and the demands cite. No code.
#![tactic(auto)]
