//! Traces that read, served over a small pair in memory: from both devices, with calls that fail, and
//! with a device that stops.
#![tactic(auto)]

#[cfg(test)]
mod pair;
#[cfg(test)]
mod reads;
#[cfg(test)]
mod run;
