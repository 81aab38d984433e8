//! Tests of the ground, of what no command comes to. Of the language: values and trees by themselves, texts that are longer than a
//! request's, rules printed. Of what stands outside: sources, sinks and files; doors, links, jobs and gates in memory; doors and links
//! over loopback, where a peer is silent, late or gone. Of a log: labels in an order, and versions of rows beside a plain list.
#![tactic(auto)]

#[cfg(test)]
mod closing;
#[cfg(test)]
mod drawn;
#[cfg(test)]
mod files;
#[cfg(test)]
mod given;
#[cfg(test)]
mod handlers;
#[cfg(test)]
mod labels;
#[cfg(test)]
mod memory;
#[cfg(test)]
mod rules;
#[cfg(test)]
mod streams;
#[cfg(test)]
mod tcp;
#[cfg(test)]
mod trees;
#[cfg(test)]
mod values;
