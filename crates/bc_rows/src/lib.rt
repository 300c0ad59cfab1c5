//! The worked rows of traces, and devices that fail and stop, run on the call that serves.
#![tactic(auto)]

#[cfg(test)]
mod cached;
#[cfg(test)]
mod calls;
#[cfg(test)]
mod edits;
#[cfg(test)]
mod failing;
#[cfg(test)]
mod forced;
#[cfg(test)]
mod lines;
#[cfg(test)]
mod pair;
#[cfg(test)]
mod pairs;
#[cfg(test)]
mod rows;
#[cfg(test)]
mod slow;
#[cfg(test)]
mod streams;
