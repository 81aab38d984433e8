// What is written when serving ends.
ghost use Rattle.std.specs.Prelude.{◌≡◌, ◌++◌, IfOk, OnOk, length, string_bytes};
ghost use Rattle.std.specs.List.{flat_map};
ghost use Rattle.report_text.specs.Reports.{IsVerdictOver};
ghost use Rattle.aire_top.specs.Serves.{end_text, receipt_line, receipts_line, receipts_of};

use journal_rows::Verdict;
use lang_core::{Name, NoMemory, Same};
use node_run::Receipt;
use report_text::verdict_text;
use script_run::{Service, names_of};
use std::alloc::Global;

// How many receipts are of the service of this name.
fn count_of(receipts: &[Receipt], name: &Name) -> u64
    ensures { result ≡ receipts_of receipts.now name.now }
{
    let mut count = 0u64;
    for receipt in receipts {
        if receipt.service.text().is(name.text()) {
            count += 1;
        }
    }
    count
}

// A service's line.
fn push_line(
    alloc: Global,
    text: &mut String,
    service: &Service,
    receipts: &[Receipt],
) -> Result<(), NoMemory>
    ensures { OnOk result (string_bytes text.new ≡ string_bytes text.old ++ receipts_line receipts.now service.now) }
{
    let me = &service.setting().me;
    let name = me.as_str();
    let count = count_of(receipts, me);
    let line = format!(in alloc; "{name} receipts {count}\n")?;
    text.push_str(line.as_str())?;
    Ok(())
}

// The line of each service, in order.
fn push_lines(
    alloc: Global,
    text: &mut String,
    services: &[Service],
    receipts: &[Receipt],
) -> Result<(), NoMemory>
    ensures { OnOk result (string_bytes text.new ≡ string_bytes text.old ++ flat_map (receipts_line receipts.now) services.now) }
{
    for service in services {
        push_line(alloc, text, service, receipts)?;
    }
    Ok(())
}

/// What is written of a run that ended well: how many receipts each service has, and the verdict.
pub fn end_text(
    alloc: Global,
    services: &[Service],
    receipts: &[Receipt],
    verdict: &Verdict,
) -> Result<String, NoMemory>
    requires { IsVerdictOver (length services.now) verdict.now }
    ensures { IfOk result (λ text. string_bytes text ≡ end_text services.now receipts.now verdict.now) }
{
    let mut text = String::new(alloc);
    push_lines(alloc, &mut text, services, receipts)?;
    let names = names_of(alloc, services)?;
    let line = verdict_text(alloc, &names, verdict)?;
    text.push_str(line.as_str())?;
    Ok(text)
}

/// Which answer a receipt is of.
pub fn receipt_line(alloc: Global, receipt: &Receipt) -> Result<String, NoMemory>
    ensures { IfOk result (λ text. string_bytes text ≡ receipt_line receipt.now) }
{
    let name = receipt.service.as_str();
    let index = receipt.index;
    Ok(format!(in alloc; "receipt {name}/{index}\n")?)
}
