// A fault as one number: its layer a thousand times, and its number.
ghost use Rattle.std.specs.Prelude.{◌≡◌};
ghost use Rattle.faults.specs.Reports.{route_report};
ghost use Rattle.plan.specs.Seen.{plan_seen};
ghost use Rattle.bench_lib.specs.Codes.{code_of, plan_code};

use board_faults::BoardFault;
use faults::fault::RouteFault;
use faults::report::Report;
use plan::tree_plan::Plan;

fn code_of(report: Report) -> u32
    ensures { result ≡ code_of report }
{
    u32::from(report.layer) * 1000 + u32::from(report.number)
}

// Why a blob does not open.
pub(crate) fn open_code(fault: RouteFault) -> u32
    ensures { result ≡ code_of (route_report fault) }
{
    code_of(fault.into())
}

// Why a tree has no plan; 0 where it has one.
pub(crate) fn plan_code(plan: &Result<Plan<'_>, BoardFault>) -> u32
    ensures { result ≡ plan_code (plan_seen plan.now) }
{
    match plan {
        Ok(_) => 0,
        Err(fault) => code_of((*fault).into()),
    }
}
