//! Pairs that are made, opened and judged, run over small devices in memory: tests alone.
#![tactic(auto)]

#[cfg(test)]
mod journals;
#[cfg(test)]
mod pairs;
#[cfg(test)]
mod slots;
#[cfg(test)]
mod surveys;
#[cfg(test)]
mod verdicts;
