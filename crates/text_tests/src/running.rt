// The run of roots as one program.
use crate::dumps::{CROSSING, GREETINGS, STRAIGHT, ran};
use std::rt::HostRuntime;

#[test]
fn roots_run_as_one_program(rt: HostRuntime) {
    ran(&rt, GREETINGS, "desk/1", "book: names bob hello there;");
    ran(&rt, GREETINGS, "", "");
    ran(
        &rt,
        STRAIGHT,
        "shop/1 shop/2",
        "shop: orders x ok 1;shop: orders y ok 2;bank: paid x 1;bank: paid y 2;",
    );
    ran(
        &rt,
        CROSSING,
        "shop/2 shop/1",
        "shop: orders x ok 1;shop: orders y ok 2;bank: paid x 1;bank: paid y 2;",
    );
}
