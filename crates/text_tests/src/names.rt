// Why names and ids are refused, which lines and files tell by one number.
use crate::given::{equal, holds, same};
use request_names::{
    NameRefused, print_call_id, print_request_id, read_call_id, read_name, read_request_id,
};
use std::process::Abort;

fn is_name(rt: &(impl Abort + AllocGlobal), text: &str) {
    match read_name(rt.alloc(), text) {
        Ok(name) => same(rt, name.as_str(), text),
        Err(_) => holds(rt, text, false),
    }
}

fn is_no_name(rt: &(impl Abort + AllocGlobal), text: &str, want: NameRefused) {
    match read_name(rt.alloc(), text) {
        Ok(_) => holds(rt, text, false),
        Err(why) => holds(rt, text, why == want),
    }
}

#[test]
fn names_are_read(rt: HostRuntime) {
    is_name(&rt, "notes");
    is_name(&rt, "_");
    is_name(&rt, "0");
    is_name(&rt, "abcdefghijklmnopqrstuvwxyz_01234");
    is_no_name(&rt, "", NameRefused::Empty);
    is_no_name(
        &rt,
        "abcdefghijklmnopqrstuvwxyz_012345",
        NameRefused::TooLong,
    );
    is_no_name(
        &rt,
        "ABCDEFGHIJKLMNOPQRSTUVWXYZ_012345",
        NameRefused::TooLong,
    );
    is_no_name(&rt, "Notes", NameRefused::BadByte(0));
    is_no_name(&rt, "no-Tes", NameRefused::BadByte(2));
    is_no_name(&rt, "notes ", NameRefused::BadByte(5));
    is_no_name(&rt, "noté", NameRefused::BadByte(3));
}

fn is_id(rt: &(impl Abort + AllocGlobal), text: &str, service: &str, number: u64) {
    let id = read_request_id(rt.alloc(), text).expect(rt, text);
    same(rt, id.service.as_str(), service);
    equal(rt, id.number, number);
    let printed = print_request_id(rt.alloc(), &id).expect(rt, "memory");
    same(rt, printed.as_str(), text);
    is_call(rt, text, service, number);
}

fn is_call(rt: &(impl Abort + AllocGlobal), text: &str, service: &str, number: u64) {
    let id = read_call_id(rt.alloc(), text).expect(rt, text);
    same(rt, id.service.as_str(), service);
    equal(rt, id.number, number);
    let printed = print_call_id(rt.alloc(), &id).expect(rt, "memory");
    same(rt, printed.as_str(), text);
}

fn is_no_call(rt: &(impl Abort + AllocGlobal), text: &str, want: NameRefused) {
    match read_call_id(rt.alloc(), text) {
        Ok(_) => holds(rt, text, false),
        Err(why) => holds(rt, text, why == want),
    }
}

fn is_no_id(rt: &(impl Abort + AllocGlobal), text: &str, want: NameRefused) {
    match read_request_id(rt.alloc(), text) {
        Ok(_) => holds(rt, text, false),
        Err(why) => holds(rt, text, why == want),
    }
    is_no_call(rt, text, want);
}

#[test]
fn ids_are_read(rt: HostRuntime) {
    is_id(&rt, "shop/7", "shop", 7);
    is_id(&rt, "_/1", "_", 1);
    is_id(&rt, "bank/18446744073709551615", "bank", u64::MAX);
    is_no_id(&rt, "", NameRefused::Empty);
    is_no_id(&rt, "shop", NameRefused::NoSlash);
    is_no_id(&rt, "Shop", NameRefused::NoSlash);
    is_no_id(&rt, "/7", NameRefused::Empty);
    is_no_id(&rt, "/", NameRefused::Empty);
    is_no_id(&rt, "Shop/1", NameRefused::BadByte(0));
    is_no_id(&rt, "shop /07", NameRefused::BadByte(4));
    is_no_id(
        &rt,
        "abcdefghijklmnopqrstuvwxyz_012345/1",
        NameRefused::TooLong,
    );
    is_no_id(
        &rt,
        "ABCDEFGHIJKLMNOPQRSTUVWXYZ_012345/0",
        NameRefused::TooLong,
    );
    is_no_id(&rt, "shop/", NameRefused::BadNumber);
    is_no_id(&rt, "shop/0", NameRefused::BadNumber);
    is_no_id(&rt, "shop/07", NameRefused::BadNumber);
    is_no_id(&rt, "shop/+7", NameRefused::BadNumber);
    is_no_id(&rt, "shop/7/8", NameRefused::BadNumber);
    is_no_id(&rt, "shop/18446744073709551616", NameRefused::BadNumber);
}
