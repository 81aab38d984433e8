// Orders of roots, each with whether it is a certificate.
use crate::dumps::{CROSSING, GREETINGS, STRAIGHT, tried};
use std::rt::HostRuntime;

// Each root once, in the order of every log: those that don't survive have no place.
const GREETED: &str = r#"desk/1: yes
: no
desk/1 desk/1: no
desk/2: no
desk/1 desk/2: no
book/1: no
desk/1 book/1: no
desk/3: no
shop/1: no"#;

const STRAIGHT_ORDERS: &str = r#"shop/1 shop/2: yes
shop/2 shop/1: no
shop/1: no
shop/2: no
shop/1 shop/2 shop/1: no
shop/1 bank/1 shop/2 bank/2: no"#;

const CROSSING_ORDERS: &str = r#"shop/1 shop/2: no
shop/2 shop/1: no
: no"#;

#[test]
fn orders_are_checked(rt: HostRuntime) {
    tried(&rt, GREETINGS, GREETED);
    tried(&rt, STRAIGHT, STRAIGHT_ORDERS);
    tried(&rt, CROSSING, CROSSING_ORDERS);
    tried(&rt, "", ": yes\nshop/1: no");
}
