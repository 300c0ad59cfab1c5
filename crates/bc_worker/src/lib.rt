//! What workers share: the gate at which each of them stands at known points.
#![tactic(auto)]

pub mod gate;
