// What is held as a text.
ghost use Rattle.std.specs.Prelude.{◌≡◌, ◌++◌, IfOk, OnOk, string_bytes};
ghost use Rattle.std.specs.List.{flat_map};
ghost use Rattle.report_text.specs.Notices.{fold_line, hold_text, notice_line, notices_text, post_name_text, version_behind};

use crate::rows::or_none;
use call_registers::Hold;
use lang_core::{NoMemory, Text};
use repair_messages::{PostName, Refusal, RefusalWord};
use repair_queue::{Notice, Notices};
use std::alloc::Global;

/// Puts which post last: `call:N` or `reply:N`, or `fetch:N`, which is never held.
pub fn push_post_name(text: &mut String, name: PostName) -> Result<(), NoMemory>
    ensures { OnOk result (string_bytes text.new ≡ string_bytes text.old ++ post_name_text name) }
{
    match name {
        PostName::Call(number) => write!(text, "call:{number}")?,
        PostName::Reply(number) => write!(text, "reply:{number}")?,
        PostName::Fetch(number) => write!(text, "fetch:{number}")?,
    }
    Ok(())
}

fn push_version(text: &mut String, name: PostName, version: u64) -> Result<(), NoMemory>
    ensures { OnOk result (string_bytes text.new ≡ string_bytes text.old ++ version_behind name version) }
{
    match name {
        PostName::Call(_) => write!(text, " v{version}")?,
        PostName::Reply(_) | PostName::Fetch(_) => write!(text, " a{version}")?,
    }
    Ok(())
}

fn push_hold(text: &mut String, hold: Hold) -> Result<(), NoMemory>
    ensures { OnOk result (string_bytes text.new ≡ string_bytes text.old ++ hold_text hold) }
{
    match hold {
        Hold::Rule(rule) => write!(text, "rule {rule}")?,
        Hold::Unknown => text.push_str(RefusalWord::Unknown.text())?,
        Hold::TooOld(number) => write!(text, "tooold {number}")?,
    }
    Ok(())
}

fn push_notice(text: &mut String, notice: &Notice) -> Result<(), NoMemory>
    ensures { OnOk result (string_bytes text.new ≡ string_bytes text.old ++ notice_line notice.now) }
{
    push_post_name(text, notice.name)?;
    push_version(text, notice.name, notice.version)?;
    text.push_str(" ")?;
    push_hold(text, notice.hold)?;
    text.push_str("\n")?;
    Ok(())
}

fn push_notices(text: &mut String, notices: &[Notice]) -> Result<(), NoMemory>
    ensures { OnOk result (string_bytes text.new ≡ string_bytes text.old ++ flat_map notice_line notices.now) }
{
    for notice in notices {
        push_notice(text, notice)?;
    }
    Ok(())
}

fn push_fold(text: &mut String, waits: Option<Refusal>) -> Result<(), NoMemory>
    ensures { OnOk result (string_bytes text.new ≡ string_bytes text.old ++ fold_line waits) }
{
    if let Some(why) = waits {
        let word = why.word.text();
        let number = why.number;
        write!(text, "fold {word} {number}\n")?;
    }
    Ok(())
}

/// What is held, a line for each post: `call:N vV rule R` or `reply:N aA rule R`. In place of `rule R` stands `unknown` where
/// the receiver doesn't know what it speaks of, and `tooold N` where what it speaks of is folded there: of an entry the number,
/// of a token that of the call. Behind them stands `fold WORD NUMBER` where a fold waits for this reason that the service would
/// make by itself. `none` alone where nothing is held and no fold waits.
pub fn notices_text(
    alloc: Global,
    notices: &Notices,
    waits: Option<Refusal>,
) -> Result<Text, NoMemory>
    ensures { IfOk result (λ text. text ≡ notices_text notices.now waits) }
{
    let mut lines = String::new(alloc);
    push_notices(&mut lines, notices.as_slice())?;
    push_fold(&mut lines, waits)?;
    or_none(lines)
}
