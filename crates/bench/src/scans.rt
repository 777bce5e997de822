// `begin` and `report`: a scan by hand. Assumes nothing of the caller.
ghost use Rattle.std.specs.Prelude.{◌≡◌, get_or, IfOk};
ghost use Rattle.bench.specs.Bench.{scan_after};

use crate::{answers, scanned};
use refusal::Refusal;
use scan::Scan;
use script::Asked;
use std::io::{self, Stdout};
use terms::Term;

fn say_report(out: Stdout, scan: Scan, outcome: Result<(), Refusal>) -> io::Result<()> {
    match outcome {
        Ok(()) => scanned::say_scan(out, scan),
        Err(refusal) => {
            answers::say(out, Term::Outcome(outcome))?;
            answers::say_refusal(out, refusal)
        }
    }
}

// Any other command leaves the scan alone.
#[tactic(auto, unfolding(crate::specs::Bench::scan_after))]
pub fn by_hand(out: Stdout, scan: Scan, asked: Asked) -> io::Result<Scan>
    ensures { IfOk result (λ after. after ≡ scan_after asked.command scan (get_or asked.values 1 0)) }
{
    let values = asked.values;
    let value = values[1];
    if asked.command == script::BEGIN {
        answers::say(out, Term::Begun)?;
        return Ok(scanner::new((value % 65536) as u16));
    }
    if asked.command == script::REPORT {
        let mut next = scan;
        let outcome = scanner::report(&mut next, value == 1);
        say_report(out, next, outcome)?;
        return Ok(next);
    }
    Ok(scan)
}
