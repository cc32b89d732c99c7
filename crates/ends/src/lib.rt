// Where a scalar, a short text or a short key ends, by a glance at its bytes: the leaves of the loops over members.
#![tactic(auto)]

pub mod scalars;
pub mod sizes;
pub mod texts;
