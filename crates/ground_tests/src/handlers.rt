// What handlers do with a body of 65,537 bytes, which no request has.
use crate::given::{holds, name, repeated, same, text};
use handler_lang::read_program;
use handler_run::{Ran, RowsView, run};
use lang_core::{Answers, Cells, Inputs, Method, Names, Request, Setting};
use std::process::Abort;

const INPUTS: Inputs = Inputs {
    moment: 0,
    w1: 0,
    w2: 0,
    w3: 0,
    w4: 0,
    w5: 0,
    w6: 0,
    w7: 0,
    w8: 0,
};

// A service without peers, whose one route has these statements.
fn setting(rt: &(impl Abort + AllocGlobal), stmts: &str) -> Setting {
    let routes = format!(in rt.alloc(); "route GET \"/\" {{ {stmts} }}").expect(rt, "memory");
    let program = read_program(rt.alloc(), routes.as_str()).expect(rt, stmts);
    Setting {
        me: name(rt, "shop"),
        peers: Names::new(rt.alloc()),
        program,
        weight: 1000,
    }
}

fn request(rt: &(impl Abort + AllocGlobal)) -> Request {
    Request {
        method: Method::Get,
        path: text(rt, "/"),
        body: repeated(rt, 'a', 65_537),
        who: text(rt, "ann"),
        chain: Names::new(rt.alloc()),
    }
}

fn is_too_long_for(rt: &(impl Abort + AllocGlobal), stmts: &str) {
    let setting = setting(rt, stmts);
    let request = request(rt);
    let cells = Cells::new(rt.alloc());
    let answers = Answers::new(rt.alloc());
    let view = RowsView { cells: &cells };
    let program = &setting.program;
    let ran = run(
        rt.alloc(),
        &setting,
        program,
        &request,
        &INPUTS,
        &answers,
        &view,
    )
    .expect(rt, "memory");
    match ran {
        Ran::Done(trace) => same(rt, trace.response.body.as_bytes(), "fault 4"),
        _ => holds(rt, stmts, false),
    }
}

#[test]
fn longer_texts_go_nowhere(rt: HostRuntime) {
    is_too_long_for(&rt, "put n \"k\" = body; reply 200 \"\";");
    is_too_long_for(&rt, "reply 200 body;");
    is_too_long_for(&rt, "call s, b = \"bank\" GET \"/x\" body;");
}
