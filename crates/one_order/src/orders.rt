// Orders of the roots.
ghost use Rattle.std.specs.Prelude.{◌≡◌, ◌↔◌, true};
ghost use Rattle.std.specs.List.{list_all};
ghost use Rattle.execution.specs.Together.{IsLegalTogether};
ghost use Rattle.dump_tables.specs.Kept.{AreKept};
ghost use Rattle.dump_audit.specs.Histories.{histories_of};
ghost use Rattle.one_world.specs.Certificates.{Passes};
ghost use Rattle.one_world.specs.Checks.{is_certificate, is_empty, stands_in};
ghost use Rattle.one_world.specs.OneWorld.{RunsAsOne};

use crate::checking::stands_in;
use dump_tables::{Dump, DumpService, DumpServices};
use lang_core::{RequestId, Seq};

/// Requests, by their names.
pub type Ids = Seq<RequestId>;

fn is_empty(order: &[RequestId]) -> bool
    ensures { result ≡ is_empty order.now }
{
    match order {
        [] => true,
        [_, ..] => false,
    }
}

fn all_stand(world: &DumpServices, order: &[RequestId], part: &[DumpService]) -> bool
    requires kept { ∥ AreKept world.now ∥₁ }
    ensures { result ≡ list_all (stands_in (histories_of world.now) order.now) (histories_of part.now) }
{
    for service in part {
        if !stands_in(world, order, service) {
            return false;
        }
    }
    true
}

fn is_certificate(world: &DumpServices, order: &[RequestId]) -> bool
    requires kept { ∥ AreKept world.now ∥₁ }
    ensures { result ≡ is_certificate (histories_of world.now) order.now }
{
    let services = world.as_slice();
    match services {
        [] => is_empty(order),
        [_, ..] => all_stand(world, order, services),
    }
}

/// Whether an order of the roots is one in which the whole world could have run as one program: each root stands in it
/// once, nothing else does, and with all that they call the roots come to the entries of each service in the order of its
/// log.
pub fn check_order(dump: &Dump, order: &Ids) -> bool
    requires legal { IsLegalTogether (histories_of dump.now.services) }
    // Yes exactly where it is a certificate.
    ensures exact { (result ≡ true) ↔ Passes (histories_of dump.now.services) order.now }
    // Then the run of the roots as one program, in this order, doesn't fail, ends with the dump's rows, and each request in
    // it responds as the dump says.
    ensures one_world { result ≡ true → RunsAsOne (histories_of dump.now.services) order.now }
{
    is_certificate(&dump.services, order.as_slice())
}
