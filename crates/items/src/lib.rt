// What a member begins with: a token that is read whole, or a container and what follows its opening mark.
#![tactic(auto)]

pub mod headers;
pub mod starts;
