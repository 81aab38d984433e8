//! Tests of whole runs over memory. Of one command: the k-th read, write or load fails, or the k-th call of a door or start of a worker;
//! which files a run asks for; worlds that are served. Of nodes: some of their exchanges and threads fail; services that have a past,
//! and one service of a world. What a run prints else is told by cases, which lie in `cases/`.
#![tactic(auto)]

#[cfg(test)]
mod faults;
#[cfg(test)]
mod given;
#[cfg(test)]
mod lost_exchanges;
#[cfg(test)]
mod memory;
#[cfg(test)]
mod pasts;
#[cfg(test)]
mod runs;
#[cfg(test)]
mod serving;
