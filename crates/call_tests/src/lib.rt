//! Tests of public calls that no command reaches. The crate holds nothing else.
#![tactic(auto)]

#[cfg(test)]
mod drafts;
#[cfg(test)]
mod interners;
#[cfg(test)]
mod merging;
#[cfg(test)]
mod records;
#[cfg(test)]
mod tool;
#[cfg(test)]
mod wire;
