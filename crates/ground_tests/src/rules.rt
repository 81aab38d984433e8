// Rules as they are printed, which a node does to compare them and no command shows.
use crate::given::same;
use authorise_rules::{print_rules, read_rules};
use std::process::Abort;

fn is_printed(rt: &(impl Abort + AllocGlobal), text: &str, want: &str) {
    let rules = read_rules(rt.alloc(), text).ok().expect(rt, text);
    let printed = print_rules(rt.alloc(), &rules).expect(rt, "memory");
    same(rt, printed.as_bytes(), want);
}

#[test]
fn rules_are_printed(rt: HostRuntime) {
    is_printed(&rt, "# nothing", "");
    is_printed(&rt, "allow any any any /", "allow any any any /\n");
    is_printed(
        &rt,
        "# the owner\n\nallow delete console same /n/\ndeny retry shop is:same /\n\n#\n",
        "allow delete console same /n/\ndeny retry shop is:same /\n",
    );
    is_printed(
        &rt,
        "allow replace any is:any:same /a\ndeny create any any /#\nallow replace_response any any /",
        "allow replace any is:any:same /a\ndeny create any any /#\nallow replace_response any any /\n",
    );
}
