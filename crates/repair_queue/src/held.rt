// Posts that are held.
ghost use Rattle.std.specs.Prelude.{◌≡◌, ◌++◌, [], IfOk, OnOk};
ghost use Rattle.std.specs.List.{cons_option, filter_map};
ghost use Rattle.repair_queue.specs.Held.{call_notice, notices, reply_notice};

use call_registers::{Hold, Register, Registers, Replies, Reply};
use lang_core::{NoMemory, Seq};
use repair_messages::PostName;
use std::alloc::Global;

/// A post that is held: its receiver refused it, and it isn't sent again until somebody asks for it.
#[derive(Clone, Copy, PartialEq, Eq)]
pub struct Notice {
    /// Which post.
    pub name: PostName,
    /// The call's version, or that of the answer.
    pub version: u64,
    /// Why it was refused.
    pub hold: Hold,
}

/// Posts that are held, in order.
pub type Notices = Seq<Notice>;

fn call_notice(register: &Register) -> Option<Notice>
    ensures { result ≡ call_notice register.now }
{
    let hold = register.held?;
    Some(Notice {
        name: PostName::Call(register.number),
        version: register.version,
        hold,
    })
}

fn reply_notice(reply: &Reply) -> Option<Notice>
    ensures { result ≡ reply_notice reply.now }
{
    let hold = reply.held?;
    Some(Notice {
        name: PostName::Reply(reply.id),
        version: reply.answer_version,
        hold,
    })
}

fn push_some(list: &mut Notices, notice: Option<Notice>) -> Result<(), NoMemory>
    ensures { OnOk result (list.new ≡ list.old ++ cons_option notice []) }
{
    match notice {
        Some(notice) => list.push(notice),
        None => Ok(()),
    }
}

fn push_calls(list: &mut Notices, registers: &[Register]) -> Result<(), NoMemory>
    ensures { OnOk result (list.new ≡ list.old ++ filter_map call_notice registers.now) }
{
    for register in registers {
        push_some(list, call_notice(register))?;
    }
    Ok(())
}

fn push_replies(list: &mut Notices, replies: &[Reply]) -> Result<(), NoMemory>
    ensures { OnOk result (list.new ≡ list.old ++ filter_map reply_notice replies.now) }
{
    for reply in replies {
        push_some(list, reply_notice(reply))?;
    }
    Ok(())
}

/// All posts that are held, of a service with these registers and replies: calls by their numbers with their versions,
/// then replies by their entries with the versions of their answers. A post that was acknowledged since is among them,
/// until it is retried or changed.
pub fn notices(alloc: Global, registers: &Registers, replies: &Replies) -> Result<Notices, NoMemory>
    ensures { IfOk result (λ list. list ≡ notices registers.now.list replies.now.list) }
{
    let mut list = Notices::new(alloc);
    push_calls(&mut list, registers.as_slice())?;
    push_replies(&mut list, replies.as_slice())?;
    Ok(list)
}
