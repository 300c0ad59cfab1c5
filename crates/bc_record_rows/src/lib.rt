//! Records on the devices and texts that are read and told, run over worked rows: tests alone.
#![tactic(auto)]

#[cfg(test)]
mod entries;
#[cfg(test)]
mod priorities;
#[cfg(test)]
mod supers;
#[cfg(test)]
mod traces;
