// The verdict over the services of a run.
ghost use Rattle.std.specs.Prelude.{◌≡◌, All, length};
ghost use Rattle.journal_rows.specs.declared.verdict.Verdict.TheVariants.{Legal};
ghost use Rattle.report_text.specs.Reports.{IsVerdictOver};
ghost use Rattle.service_events.specs.Allowed.{IsAllowed};
ghost use Rattle.service_events.specs.Fits.{Fits};
ghost use Rattle.world_agreement.specs.Legal.{AreLegal};
ghost use Rattle.world_agreement.specs.Partners.{NamesDiffer};
ghost use Rattle.world_audit.specs.Verdicts.{IsVerdict};

use journal_rows::Verdict;
use service_core::Service;
use world_audit::audit;

/// Changes nothing: it shows what a service's type keeps, that it fits its journal and that its rules allowed each repair in that.
pub fn look_at_all(services: &[Service])
    ensures fits { All Fits services.now }
    ensures allowed { All IsAllowed services.now }
{
    for service in services {
        let _journal = service.journal();
    }
}

/// The audit's verdict over services. Whatever it is, each service fits its journal, and its rules allowed each repair in it.
/// Where it is Legal, and the services have different names, all logs and rows form one legal execution of the surviving
/// requests.
pub fn judge(services: &[Service]) -> Verdict
    ensures verdict { IsVerdict services.now result }
    ensures over { IsVerdictOver (length services.now) result }
    ensures fits { All Fits services.now }
    ensures allowed { All IsAllowed services.now }
    ensures legal { NamesDiffer services.now → result ≡ Legal → AreLegal services.now }
{
    look_at_all(services);
    audit(services)
}
