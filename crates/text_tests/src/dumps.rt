// Dumps, and what is found of orders of their roots.
use dump_audit::{Dump, Judged, judge};
use dump_reader::read_dump;
use one_order::{Certificate, Ids, RequestId, Rows, check_order, find_order, one_run};
use request_names::read_request_id;
use std::process::Abort;

/// A desk whose greetings are noted in a book. The second was cancelled at the desk, and then at the book.
pub const GREETINGS: &str = r#"service desk
peers book
program route POST "/greet/*" {\ncall s , said = "book" PUT ( "/names/" ++ path ( 2 ) ) body ;\nreply s said ;\n}\n
entry 1 out 0 1 0 0 149 11249 57305 38044 35283 24819 26463 18689 POST /greet/bob ann - hello there
call 1 book PUT /names/bob hello there
answer 200 noted bob
reply 200 noted bob
entry 2 out 0 1 1 0 14800 61482 23634 3125 37838 19833 45735 22275 POST /greet/mallory eve - boo
reply 410
end
service book
peers desk
program route PUT "/names/*" {\nput names path ( 2 ) = body ;\nreply 200 ( "noted " ++ path ( 2 ) ) ;\n}\n
entry 1 desk/1 1 1 0 0 25472 9901 21742 57836 12332 7456 34978 1944 PUT /names/bob desk desk hello there
reply 200 noted bob
entry 2 desk/2 2 0 0 0 32274 61292 9384 48504 33339 10093 36142 23707 PUT /names/mallory desk desk boo
reply 410
row names bob hello there
end
"#;

/// Two purchases, y and x, whose payments the bank has in the other order.
pub const CROSSING: &str = r#"service shop
peers bank
program route POST "/buy/*" {\ncall s , b = "bank" POST ( "/pay/" ++ path ( 2 ) ) body ;\nput orders path ( 2 ) = b ;\nreply s b ;\n}\n
entry 1 out 0 1 0 0 1 2 3 4 5 6 7 8 POST /buy/y ann - 2
call 2 bank POST /pay/y 2
answer 200 ok 2
reply 200 ok 2
entry 2 out 0 1 0 0 1 2 3 4 5 6 7 8 POST /buy/x ann - 1
call 1 bank POST /pay/x 1
answer 200 ok 1
reply 200 ok 1
row orders x ok 1
row orders y ok 2
end
service bank
peers shop
program route POST "/pay/*" {\nput paid path ( 2 ) = body ;\nreply 200 ( "ok " ++ body ) ;\n}\n
entry 1 shop/1 1 1 0 0 1 2 3 4 5 6 7 8 POST /pay/x shop shop 1
reply 200 ok 1
entry 2 shop/2 1 1 0 0 1 2 3 4 5 6 7 8 POST /pay/y shop shop 2
reply 200 ok 2
row paid x 1
row paid y 2
end
"#;

/// The same purchases, whose payments the bank has in the shop's order.
pub const STRAIGHT: &str = r#"service shop
peers bank
program route POST "/buy/*" {\ncall s , b = "bank" POST ( "/pay/" ++ path ( 2 ) ) body ;\nput orders path ( 2 ) = b ;\nreply s b ;\n}\n
entry 1 out 0 1 0 0 1 2 3 4 5 6 7 8 POST /buy/y ann - 2
call 2 bank POST /pay/y 2
answer 200 ok 2
reply 200 ok 2
entry 2 out 0 1 0 0 1 2 3 4 5 6 7 8 POST /buy/x ann - 1
call 1 bank POST /pay/x 1
answer 200 ok 1
reply 200 ok 1
row orders x ok 1
row orders y ok 2
end
service bank
peers shop
program route POST "/pay/*" {\nput paid path ( 2 ) = body ;\nreply 200 ( "ok " ++ body ) ;\n}\n
entry 1 shop/2 1 1 0 0 1 2 3 4 5 6 7 8 POST /pay/y shop shop 2
reply 200 ok 2
entry 2 shop/1 1 1 0 0 1 2 3 4 5 6 7 8 POST /pay/x shop shop 1
reply 200 ok 1
row paid x 1
row paid y 2
end
"#;

/// A purchase that pays twice, of which the bank has the second payment first.
pub const TWICE: &str = r#"service shop
peers bank
program route POST "/buy/*" {\ncall s , a = "bank" POST "/pay/a" body ;\ncall t , b = "bank" POST "/pay/b" body ;\nreply 200 "" ;\n}\n
entry 1 out 0 1 0 0 1 2 3 4 5 6 7 8 POST /buy/x ann - 1
call 1 bank POST /pay/a 1
answer 200 ok 1
call 2 bank POST /pay/b 1
answer 200 ok 1
reply 200
end
service bank
peers shop
program route POST "/pay/*" {\nput paid path ( 2 ) = body ;\nreply 200 ( "ok " ++ body ) ;\n}\n
entry 1 shop/2 1 1 0 0 1 2 3 4 5 6 7 8 POST /pay/b shop shop 1
reply 200 ok 1
entry 2 shop/1 1 1 0 0 1 2 3 4 5 6 7 8 POST /pay/a shop shop 1
reply 200 ok 1
row paid a 1
row paid b 1
end
"#;

/// A till that pays twice behind the two purchases, between whose payments the bank has one of its own.
pub const BEHIND: &str = r#"service till
peers bank
program route POST "/take/*" {\ncall s , b = "bank" POST ( "/pay/" ++ path ( 2 ) ) body ;\nreply s b ;\n}\n
entry 1 out 0 1 0 0 1 2 3 4 5 6 7 8 POST /take/t ann - 5
call 1 bank POST /pay/t 5
answer 200 ok 5
reply 200 ok 5
entry 2 out 0 1 0 0 1 2 3 4 5 6 7 8 POST /take/u ann - 6
call 2 bank POST /pay/u 6
answer 200 ok 6
reply 200 ok 6
end
service shop
peers bank
program route POST "/buy/*" {\ncall s , b = "bank" POST ( "/pay/" ++ path ( 2 ) ) body ;\nput orders path ( 2 ) = b ;\nreply s b ;\n}\n
entry 1 out 0 1 0 0 1 2 3 4 5 6 7 8 POST /buy/y ann - 2
call 2 bank POST /pay/y 2
answer 200 ok 2
reply 200 ok 2
entry 2 out 0 1 0 0 1 2 3 4 5 6 7 8 POST /buy/x ann - 1
call 1 bank POST /pay/x 1
answer 200 ok 1
reply 200 ok 1
row orders x ok 1
row orders y ok 2
end
service bank
peers shop,till
program route POST "/pay/*" {\nput paid path ( 2 ) = body ;\nreply 200 ( "ok " ++ body ) ;\n}\n
entry 1 shop/1 1 1 0 0 1 2 3 4 5 6 7 8 POST /pay/x shop shop 1
reply 200 ok 1
entry 2 out 0 1 0 0 1 2 3 4 5 6 7 8 POST /pay/z ann - 3
reply 200 ok 3
entry 3 shop/2 1 1 0 0 1 2 3 4 5 6 7 8 POST /pay/y shop shop 2
reply 200 ok 2
entry 4 till/1 1 1 0 0 1 2 3 4 5 6 7 8 POST /pay/t till till 5
reply 200 ok 5
entry 5 till/2 1 1 0 0 1 2 3 4 5 6 7 8 POST /pay/u till till 6
reply 200 ok 6
row paid t 5
row paid u 6
row paid x 1
row paid y 2
row paid z 3
end
"#;

fn ids_of(rt: &(impl Abort + AllocGlobal), text: &str) -> Ids {
    let mut ids = Ids::new(rt.alloc());
    for word in text.split(' ') {
        if !word.is_empty() {
            let id = read_request_id(rt.alloc(), word).expect(rt, "an id");
            ids.push(id).expect(rt, "memory");
        }
    }
    ids
}

fn checked(rt: &(impl Abort + AllocGlobal), dump: &Dump, order: &str) -> &'static str {
    let order = ids_of(rt, order);
    match judge(rt.alloc(), dump).expect(rt, "memory") {
        Judged::Legal => {
            if check_order(dump, &order) {
                "yes"
            } else {
                "no"
            }
        }
        Judged::Differs { .. } => "not legal",
    }
}

/// Tries these orders of a dump's roots, one a line, each with what is to be found.
pub fn tried(rt: &(impl Abort + AllocGlobal), text: &str, rows: &str) {
    let dump = read_dump(rt.alloc(), text.as_bytes()).expect(rt, "a dump");
    for row in rows.lines() {
        match row.split_once(": ") {
            Some((order, want)) => {
                let found = checked(rt, &dump, order);
                assert_eq!(rt; found, want, "at {order}");
            }
            None => assert!(rt; false, "no row: {row}"),
        }
    }
}

fn push_rows(rt: &(impl Abort + AllocGlobal), text: &mut String, service: &Rows) {
    for cell in service.rows.as_slice() {
        let name = service.service.as_str();
        let (table, key, value) = (cell.table.as_str(), cell.key.as_str(), cell.text.as_str());
        let line = format!(in rt.alloc(); "{name}: {table} {key} {value};").expect(rt, "memory");
        text.push_str(&line).expect(rt, "memory");
    }
}

fn rows_of(rt: &(impl Abort + AllocGlobal), dump: &Dump, order: &str) -> String {
    let mut text = String::new(rt.alloc());
    let order = ids_of(rt, order);
    if let Judged::Legal = judge(rt.alloc(), dump).expect(rt, "memory") {
        match one_run(rt.alloc(), dump, &order).expect(rt, "memory") {
            Some(world) => {
                for service in &world {
                    push_rows(rt, &mut text, service);
                }
            }
            None => text.push_str("fails").expect(rt, "memory"),
        }
    }
    text
}

/// Runs roots of a dump as one program, which is to end with these rows.
pub fn ran(rt: &(impl Abort + AllocGlobal), text: &str, order: &str, want: &str) {
    let dump = read_dump(rt.alloc(), text.as_bytes()).expect(rt, "a dump");
    let found = rows_of(rt, &dump, order);
    assert_eq!(rt; found.as_str(), want, "at {order}");
}

fn push_id(rt: &(impl Abort + AllocGlobal), text: &mut String, id: &RequestId) {
    let (name, number) = (id.service.as_str(), id.number);
    let word = format!(in rt.alloc(); " {name}/{number}").expect(rt, "memory");
    text.push_str(&word).expect(rt, "memory");
}

fn push_back(rt: &(impl Abort + AllocGlobal), text: &mut String, certificate: &Certificate) {
    match certificate {
        Certificate::Order(_) => text.push_str("none").expect(rt, "memory"),
        Certificate::Cycle { back, .. } => {
            for id in back.as_slice() {
                push_id(rt, text, id);
            }
        }
    }
}

/// Finds what leads back where a dump's roots have no order, as ids with a space before each; `none` where they have one.
pub fn leads_back(rt: &(impl Abort + AllocGlobal), text: &str, want: &str) {
    let dump = read_dump(rt.alloc(), text.as_bytes()).expect(rt, "a dump");
    let certificate = find_order(rt.alloc(), &dump);
    let certificate = certificate.ok().expect(rt, "a certificate");
    let mut told = String::new(rt.alloc());
    push_back(rt, &mut told, &certificate);
    assert_eq!(rt; told.as_str(), want);
}
