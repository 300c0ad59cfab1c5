//! Nodes, their cache, the walk over them and changes of the tree, run over worked rows: tests
//! alone.
#![tactic(auto)]

#[cfg(test)]
mod cuts;
#[cfg(test)]
mod exchanges;
#[cfg(test)]
mod leaves;
#[cfg(test)]
mod nodes;
#[cfg(test)]
mod plans;
#[cfg(test)]
mod walks;
