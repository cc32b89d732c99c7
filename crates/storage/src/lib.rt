// Laws about storage: the slots of a payload, and the addresses that name them. No code.
#![tactic(auto)]
