//! Tests of calls that no job of the program reaches, and of engines as threads, a module for each topic. They are here
//! and not beside the code, since a crate with tests is proved twice.
#![tactic(auto)]

#[cfg(test)]
mod barriers;
#[cfg(test)]
mod calls;
#[cfg(test)]
mod cert;
#[cfg(test)]
mod checksum;
#[cfg(test)]
mod conflicts;
#[cfg(test)]
mod descriptor;
#[cfg(test)]
mod engines;
#[cfg(test)]
mod explain;
#[cfg(test)]
mod given;
#[cfg(test)]
mod hazards;
#[cfg(test)]
mod image;
#[cfg(test)]
mod lines;
#[cfg(test)]
mod listing;
#[cfg(test)]
mod operation_runs;
#[cfg(test)]
mod operations;
#[cfg(test)]
mod plan;
#[cfg(test)]
mod prepared;
#[cfg(test)]
mod ranges;
#[cfg(test)]
mod report;
#[cfg(test)]
mod rooms;
#[cfg(test)]
mod splitter;
