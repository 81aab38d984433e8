//! What a dump of services is, as a text: the definition, for whoever writes one and for the laws of those who read it.
//!
//! There is no code here.
#![tactic(auto)]
