//! Tests that can't be run through the program's commands: of devices that fail at each call, of random programs, of
//! drafts, of the reading of a single line, of looks with another pass, of folders in memory, of a gate that waits, of
//! synced answers, and of sockets. They are a crate of their own, so that `./check` proves the tested crates only once.
#![tactic(auto)]

#[cfg(test)]
mod drafts;
#[cfg(test)]
mod failing;
#[cfg(test)]
mod folders;
#[cfg(test)]
mod gates;
#[cfg(test)]
mod lines;
#[cfg(test)]
mod looks;
#[cfg(test)]
mod programs;
#[cfg(test)]
mod random_programs;
#[cfg(test)]
mod servers;
#[cfg(test)]
mod sites;
#[cfg(test)]
mod stops;
#[cfg(test)]
mod syncs;
