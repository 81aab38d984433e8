// What a service's rules decide of a repair of a request.
ghost use Rattle.std.specs.Prelude.{◌≡◌, option_map};
ghost use Rattle.std.specs.Option.{option_copied};
ghost use Rattle.lang_core.specs.declared.request.Request.{Request};
ghost use Rattle.authorise_rules.specs.Deciding.{decision};
ghost use Rattle.service_parts.specs.Asking.{question_by};

use authorise_rules::{Asked, Decision, Rules, decide};
use lang_core::{Name, Request, Text};
use repair_messages::Kind;

fn user_of(request: Option<&Request>) -> Option<&Text>
    ensures { option_copied result ≡ option_map (λ (q : Request). q.who) (option_copied request.entry) }
{
    match request {
        None => None,
        Some(request) => Some(&request.who),
    }
}

/// The path of a request, where there is one.
pub fn path_of(request: Option<&Request>) -> Option<&Text>
    ensures { option_copied result ≡ option_map (λ (q : Request). q.path) (option_copied request.entry) }
{
    match request {
        None => None,
        Some(request) => Some(&request.path),
    }
}

/// What rules decide of a repair of this kind, from this sender, or from an operator where there is none, for this user:
/// by the old request and the path of the new one, where they exist.
pub fn decision_by<'a>(
    rules: &Rules,
    kind: Kind,
    from: Option<&'a Name>,
    who: &'a Text,
    old: Option<&'a Request>,
    new_path: Option<&'a Text>,
) -> Decision
    ensures { result ≡ decision rules.now (question_by kind (option_copied from.entry) who.now (option_copied old.entry) (option_copied new_path.entry)) }
{
    let original = user_of(old);
    let old_path = path_of(old);
    let asked = Asked {
        kind,
        from,
        who,
        original,
        old_path,
        new_path,
    };
    decide(rules, &asked)
}
