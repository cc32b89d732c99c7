// What was demanded of the whole, stated in one place and proved. No code.
#![tactic(auto)]
