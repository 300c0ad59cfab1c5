//! Steps of a seat, run over a small pair in memory: leaves that come and go, reads of pieces and of
//! lines, and keys that take away what a leaf says.
#![tactic(auto)]

#[cfg(test)]
mod drops;
#[cfg(test)]
mod leaves;
#[cfg(test)]
mod lines;
#[cfg(test)]
mod pair;
#[cfg(test)]
mod reads;
#[cfg(test)]
mod run;
