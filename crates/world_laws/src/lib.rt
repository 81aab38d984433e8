//! Laws of a world of services: each event keeps that its services fit their journals and agree, and that what each
//! packet and each flight says stands in a journal; and a request from outside with the deliveries that follow it comes to an end.
//!
//! There is no code here: the laws are what the top call's clauses are checked with.
#![tactic(auto)]
