//! Leaves and journals beside plain lists, run over random rows: tests alone.
#![tactic(auto)]

#[cfg(test)]
mod journals;
#[cfg(test)]
mod leaves;
#[cfg(test)]
mod random;
#[cfg(test)]
mod rings;
#[cfg(test)]
mod versions;
