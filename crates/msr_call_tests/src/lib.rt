//! Tests of what only calls can show, of the crates below the reports: fixtures, devices and readers with a state, a judge
//! of runs that come one after another, the texts of faults that no row of a table shows. The tables are those of
//! msr_vectors.
#![tactic(auto)]

#[cfg(test)]
mod devices;
#[cfg(test)]
mod exchanging;
#[cfg(test)]
mod facts;
#[cfg(test)]
mod fixtures;
#[cfg(test)]
mod judging;
#[cfg(test)]
mod made;
#[cfg(test)]
mod packing;
#[cfg(test)]
mod reading;
#[cfg(test)]
mod texts;
