//! Pairs in memory that are opened and closed over and over, calls that fail on the way, and steps
//! of a run over them.
#![tactic(auto)]

#[cfg(test)]
mod idle;
#[cfg(test)]
mod pair;
#[cfg(test)]
mod places;
#[cfg(test)]
mod run;
#[cfg(test)]
mod shown;
#[cfg(test)]
mod stops;
