//! Tests of the devices in memory, of the adapters over the system and of the seeds, through their public calls. The crate
//! holds nothing else.
#![tactic(auto)]

#[cfg(test)]
mod memory;
#[cfg(test)]
mod seeded;
#[cfg(test)]
mod system;
#[cfg(test)]
mod view;
