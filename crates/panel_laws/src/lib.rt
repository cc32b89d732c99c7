// Laws about the slots that the panel is answered: by the formulas, and by the address call. No code.
#![tactic(auto)]
