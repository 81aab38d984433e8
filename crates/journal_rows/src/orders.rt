// Orders of operators, and the row that one leaves.
ghost use Rattle.std.specs.Prelude.{◌≡◌, IfOk};

use authorise_rules::GivenRules;
use lang_core::{Copied, Method, NoMemory, Request, Same, Shared, Text};
use lang_programs::ProgramText;
use repair_messages::{PostName, copied_pair};
use std::alloc::Global;

/// An order of an operator.
#[derive(Drop)]
pub enum Command {
    /// Strikes the request of this number: it is to have had no effect.
    Cancel(u64),
    /// Takes back that the request of this number is struck.
    Restore(u64),
    /// Gives the request of this number another method, path and body.
    Replace {
        id: u64,
        method: Method,
        path: Text,
        body: Text,
    },
    /// Puts a request that was never made among those of the past: immediately before the request numbered `before`
    /// where there is one, else immediately after the one numbered `after`, else at the end.
    Create {
        before: Option<u64>,
        after: Option<u64>,
        request: Request,
    },
    /// Releases a post that was refused, and sends it in the operator's name.
    Retry(PostName),
    /// Folds the entries up to and including that of this number: nothing of them is repaired any more.
    Fold(u64),
    /// Gives the service another program from now on. What came before keeps the one under which it came.
    Deploy(Shared<ProgramText>),
    /// Gives the service another program in place of the one of this number, for all that runs under that one: from now on, and
    /// for the past too.
    Correct(u64, Shared<ProgramText>),
    /// Gives the service other rules from now on.
    Rules(Shared<GivenRules>),
}

/// What an accepted order is about.
#[derive(Clone, Copy, PartialEq, Eq)]
pub enum About {
    /// The request of this number.
    Request(u64),
    /// This post.
    Post(PostName),
    /// The program that the order brought, by the number that it has from then on.
    Program(u64),
    /// The service's rules.
    Rules,
}

/// An order was accepted.
pub struct OrderedRow {
    /// Which order it is, from 1 to 64 visible characters; one that repeats the token gets the same answer.
    pub token: Text,
    pub command: Command,
    /// The operator.
    pub who: Text,
    /// The number of the rule that allowed it, from 1.
    pub rule: u32,
    /// The request that the order found there, where it is about one.
    pub original: Option<Request>,
    /// The request that the order put there, where it put one.
    pub repaired: Option<Request>,
    pub about: About,
}

impl Drop for OrderedRow {
    fn drop(self) {
        let Self {
            token: _,
            command: _,
            who: _,
            rule: _,
            original: _,
            repaired: _,
            about: _,
        } = self;
    }
}

fn copied_replace(
    alloc: Global,
    id: u64,
    method: Method,
    path: &Text,
    body: &Text,
) -> Result<Command, NoMemory>
    ensures { IfOk result (λ command. command ≡ Command.Replace id method path.now body.now) }
{
    let (path, body) = copied_pair(alloc, path, body)?;
    Ok(Command::Replace {
        id,
        method,
        path,
        body,
    })
}

fn copied_create(
    alloc: Global,
    before: Option<u64>,
    after: Option<u64>,
    request: &Request,
) -> Result<Command, NoMemory>
    ensures { IfOk result (λ command. command ≡ Command.Create before after request.now) }
{
    let request = request.copied(alloc)?;
    Ok(Command::Create {
        before,
        after,
        request,
    })
}

impl Copied for Command {
    fn copied(&self, alloc: Global) -> Result<Command, NoMemory> {
        match self {
            Command::Cancel(id) => Ok(Command::Cancel(*id)),
            Command::Restore(id) => Ok(Command::Restore(*id)),
            Command::Replace {
                id,
                method,
                path,
                body,
            } => copied_replace(alloc, *id, *method, path, body),
            Command::Create {
                before,
                after,
                request,
            } => copied_create(alloc, *before, *after, request),
            Command::Retry(name) => Ok(Command::Retry(*name)),
            Command::Fold(id) => Ok(Command::Fold(*id)),
            Command::Deploy(program) => Ok(Command::Deploy(program.copied(alloc)?)),
            Command::Correct(number, program) => {
                Ok(Command::Correct(*number, program.copied(alloc)?))
            }
            Command::Rules(rules) => Ok(Command::Rules(rules.copied(alloc)?)),
        }
    }
}

impl Same for Command {
    fn is(&self, other: &Command) -> bool {
        match (self, other) {
            (Command::Cancel(id), Command::Cancel(other_id)) => *id == *other_id,
            (Command::Restore(id), Command::Restore(other_id)) => *id == *other_id,
            (
                Command::Replace {
                    id,
                    method,
                    path,
                    body,
                },
                Command::Replace {
                    id: other_id,
                    method: other_method,
                    path: other_path,
                    body: other_body,
                },
            ) => {
                *id == *other_id
                    && *method == *other_method
                    && path.is(other_path)
                    && body.is(other_body)
            }
            (
                Command::Create {
                    before,
                    after,
                    request,
                },
                Command::Create {
                    before: other_before,
                    after: other_after,
                    request: other_request,
                },
            ) => before.is(other_before) && after.is(other_after) && request.is(other_request),
            (Command::Retry(name), Command::Retry(other_name)) => *name == *other_name,
            (Command::Fold(id), Command::Fold(other_id)) => *id == *other_id,
            (Command::Deploy(program), Command::Deploy(other_program)) => program.is(other_program),
            (Command::Correct(number, program), Command::Correct(other_number, other_program)) => {
                *number == *other_number && program.is(other_program)
            }
            (Command::Rules(rules), Command::Rules(other_rules)) => rules.is(other_rules),
            _ => false,
        }
    }
}

fn copied_order(
    alloc: Global,
    token: &Text,
    command: &Command,
    who: &Text,
) -> Result<(Text, Command, Text), NoMemory>
    ensures { IfOk result (λ order. (order.0 ≡ token.now) × (order.1 ≡ command.now) × (order.2 ≡ who.now)) }
{
    let (token, who) = copied_pair(alloc, token, who)?;
    let command = command.copied(alloc)?;
    Ok((token, command, who))
}

impl Copied for OrderedRow {
    fn copied(&self, alloc: Global) -> Result<OrderedRow, NoMemory> {
        let (token, command, who) = copied_order(alloc, &self.token, &self.command, &self.who)?;
        let (original, repaired) = copied_pair(alloc, &self.original, &self.repaired)?;
        Ok(OrderedRow {
            token,
            command,
            who,
            rule: self.rule,
            original,
            repaired,
            about: self.about,
        })
    }
}

impl Same for OrderedRow {
    fn is(&self, other: &OrderedRow) -> bool {
        self.token.is(&other.token)
            && self.command.is(&other.command)
            && self.who.is(&other.who)
            && self.rule == other.rule
            && self.original.is(&other.original)
            && self.repaired.is(&other.repaired)
            && self.about == other.about
    }
}
