// Laws about two messages that differ in some bytes alone. No code.
#![tactic(auto)]
