//! Pieces that are written into the cache of a small pair in memory, and read back.
#![tactic(auto)]

#[cfg(test)]
mod pair;
#[cfg(test)]
mod run;
#[cfg(test)]
mod writes;
