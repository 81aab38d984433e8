// What leads back, where two roots of a dump stand in an order that no run as one program has.
use crate::dumps::{BEHIND, CROSSING, STRAIGHT, TWICE, leads_back};
use std::rt::HostRuntime;

#[test]
fn cycles_lead_back(rt: HostRuntime) {
    leads_back(&rt, CROSSING, " shop/2 shop/1");
    leads_back(&rt, TWICE, "");
    leads_back(&rt, BEHIND, " shop/2 bank/2 shop/1");
    leads_back(&rt, STRAIGHT, "none");
}
