//! Whom a run calls: each of its calls hands on who called for its request, the service itself last, and goes to a peer
//! that is none of these. So calls never come back to a service that waits for them.
#![tactic(auto)]
