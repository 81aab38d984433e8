//! Tests of texts and bytes that no command shows. Of what is read and printed: why a name is refused, lines of what no script can bring
//! about, and the fields of world files that a run of a script doesn't use. Of messages as bytes: sources and sinks that fail, what is
//! left behind a message, replies that a peer would have to send, and words of refusals for want of memory. Of dumps: rows in a tree
//! beside rows in a list, which orders of a dump's roots are certificates, what their run as one program leaves, and what leads back
//! where there is no order. All else is told by cases, which lie in `cases/`.
#![tactic(auto)]

#[cfg(test)]
mod cycles;
#[cfg(test)]
mod dumps;
#[cfg(test)]
mod given;
#[cfg(test)]
mod limits;
#[cfg(test)]
mod names;
#[cfg(test)]
mod orders;
#[cfg(test)]
mod printed;
#[cfg(test)]
mod reading;
#[cfg(test)]
mod replies;
#[cfg(test)]
mod rows;
#[cfg(test)]
mod running;
#[cfg(test)]
mod sending;
#[cfg(test)]
mod words;
#[cfg(test)]
mod worlds;
#[cfg(test)]
mod writing;
