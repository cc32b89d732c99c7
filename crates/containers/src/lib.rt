// Arrays and objects as far as they don't nest: the row over what they hold, and typed objects.
#![tactic(auto)]

pub mod lists;
pub mod pairs;
