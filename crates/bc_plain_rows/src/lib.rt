//! Parts of the core beside plain programs, run over worked and over random rows: tests alone.
#![tactic(auto)]

#[cfg(test)]
mod buckets;
#[cfg(test)]
mod extents;
#[cfg(test)]
mod fills;
#[cfg(test)]
mod flights;
#[cfg(test)]
mod lists;
#[cfg(test)]
mod modes;
#[cfg(test)]
mod plain;
#[cfg(test)]
mod random;
#[cfg(test)]
mod rounds;
