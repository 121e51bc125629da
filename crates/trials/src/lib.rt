// Trials of the cabinet on small and on full wirings, and a scale that is made here for them.
#![tactic(auto)]

mod residue;

pub use residue::Residue;

#[cfg(test)]
mod cabinet_trials;
#[cfg(test)]
mod combination_trials;
#[cfg(test)]
mod total_trials;
#[cfg(test)]
mod wirings;
