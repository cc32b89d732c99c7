// Laws about meaning: the house form of a message has the same, and is its own house form. No code.
#![tactic(auto)]
