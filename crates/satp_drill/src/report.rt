// The report of a drill.
ghost use Rattle.std.specs.Prelude.{◌≡◌, ◌≤◌, List, Some, option_map, IfSome};
ghost use Rattle.satp_base.specs.Money.{Book, free_sum_of};
ghost use Rattle.satp_base.specs.Numbers.{greatest_amount};
ghost use Rattle.satp_accounts.specs.Books.{book_of as accounts_book};
ghost use Rattle.satp_outputs.specs.States.{book_of as outputs_book};
ghost use Rattle.satp_drill.specs.Ends.{reported};
ghost use Rattle.satp_drill_runs.specs.Reports.{gold, report_of};
ghost use Rattle.satp_points.specs.States.{Holds};
ghost use Rattle.satp_records.specs.declared.stored.Setup.{Setup};
ghost use Rattle.satp_schedule.specs.declared.line.Line.{Line};
ghost use Rattle.satp_drill_runs.specs.Reports.{sessions_of};
ghost use Rattle.satp_sides.specs.Points.{Stored};

use crate::count::{Ended, count};
use crate::named::Named;
use crate::names::gold;
use satp_accounts::Accounts;
use satp_base::LedgerCore;
use satp_gateway::Gateway;
use satp_memory::MemSite;
use satp_outputs::Outputs;

/// What a drill comes to, by the records and the ledgers of both sides.
#[derive(Clone, Copy, Debug, PartialEq, Eq)]
pub struct Report {
    /// The different sessions that `start` lines name.
    pub sessions: u32,
    /// Those of them that are committed.
    pub committed: u32,
    /// Those of them that are rolled back.
    pub rolled_back: u32,
    /// Those of them that no record of their origin names.
    pub not_begun: u32,
    /// The gold that all owners together are free to use, on both ledgers.
    pub free_gold: u64,
}

/// The report on these sessions.
pub(crate) fn draw_up(
    named: &Named,
    gateway_a: &Gateway,
    a: &MemSite<Accounts>,
    gateway_b: &Gateway,
    b: &MemSite<Outputs>,
) -> Report
    ensures { (lines : List Line) (setup_a setup_b : Setup) (xs ys : List Stored) (book_a book_b : Book)
        → named.now ≡ sessions_of lines → Holds gateway_a.now setup_a xs → Holds gateway_b.now setup_b ys
        → option_map accounts_book a.now.core ≡ Some book_a → option_map outputs_book b.now.core ≡ Some book_b
        → reported result ≡ report_of lines xs ys book_a book_b }
{
    let sessions = named.count();
    let committed = count(named, Ended::Committed, gateway_a, gateway_b);
    let rolled_back = count(named, Ended::RolledBack, gateway_a, gateway_b);
    let not_begun = count(named, Ended::NotBegun, gateway_a, gateway_b);
    let free_a = free_gold(a);
    let free_b = free_gold(b);
    Report {
        sessions,
        committed,
        rolled_back,
        not_begun,
        free_gold: free_a + free_b,
    }
}

/// The gold that all owners together are free to use.
fn free_gold<C: LedgerCore>(site: &MemSite<C>) -> u64
    ensures sum { IfSome (option_map C.book site.now.core) (λ book. result ≡ free_sum_of book gold) }
    ensures most { result ≤ greatest_amount }
{
    match site.core() {
        Some(core) => free_in(core),
        None => 0,
    }
}

fn free_in<C: LedgerCore>(core: &C) -> u64
    ensures sum { result ≡ free_sum_of (C.book core.now) gold }
    ensures most { result ≤ greatest_amount }
{
    let asset = gold();
    core.free_sum(asset)
}
