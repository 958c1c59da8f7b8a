//! Tests of single profiles that are added to drafts, and of messages that are cut into parts. The crate holds nothing else.
#![tactic(auto)]

#[cfg(test)]
mod adders;
#[cfg(test)]
mod bodies;
#[cfg(test)]
mod cuts;
#[cfg(test)]
mod positions;
#[cfg(test)]
mod singles;
