//! What it is that a whole world ran as one program: roots one after the other, each call in place.
//!
//! A root is a request from outside that survives. In one program it runs with all that it calls, down to the last call,
//! before the next root begins; there are no logs, no messages and no answers to wait for. Where the requests of a legal
//! execution stand in each service's log in the order in which such a program comes to them, the program ends with the
//! rows that the services have, and each request in it responds as the service did.
#![tactic(auto)]

mod rows;

pub use rows::{Rows, WorldRows};
