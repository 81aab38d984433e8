// Rows that are noted at once.
ghost use Rattle.std.specs.Prelude.{◌≡◌, IfOk, OnOk, OnErr};
ghost use Rattle.service_events.specs.Calls.{noted};
ghost use Rattle.service_parts.specs.Drafts.{with_draft};
ghost use Rattle.service_parts.specs.Parts.{kept};
ghost use Rattle.service_parts.specs.Services.{HasRoom};

use journal_rows::Row;
use lang_core::NoMemory;
use service_parts::{Draft, Parts, note, note_draft, reserve_draft, start};
use std::alloc::Global;

// A draft of these rows.
fn drafted(alloc: Global, parts: &Parts, rows: Vec<Row>) -> Result<Draft, NoMemory>
    ensures { IfOk result (λ draft. with_draft draft (kept parts.now) ≡ noted rows.items (kept parts.now)) }
{
    let mut draft = start(alloc);
    note(alloc, parts, &mut draft, rows)?;
    Ok(draft)
}

/// Notes rows. Refused, nothing changes.
pub(crate) fn note_at_once(alloc: Global, parts: &mut Parts, rows: Vec<Row>) -> Result<(), NoMemory>
    requires { HasRoom parts.old }
    ensures ok { OnOk result (kept parts.new ≡ noted rows.items (kept parts.old)) }
    ensures err { OnErr result (kept parts.new ≡ kept parts.old) }
    ensures room { HasRoom parts.new }
{
    let draft = drafted(alloc, parts, rows)?;
    reserve_draft(
        &mut parts.journal,
        &mut parts.registers,
        draft.rows.len() as u64,
        draft.changes.added.len() as u64,
        parts.flights.as_slice(),
    )?;
    note_draft(&mut parts.journal, &mut parts.registers, draft);
    Ok(())
}
