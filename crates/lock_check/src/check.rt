// Checking a lock by exploring it.
ghost use Rattle.std.specs.Prelude.{◌≡◌, ◌≤◌, length, take, drop};
ghost use Rattle.exploration.specs.Claims.{Closed, EveryVisitTells, Antichain};
ghost use Rattle.exploration.specs.Stores.{states};
ghost use Rattle.explorer.specs.Held.{left_by};
ghost use Rattle.canal_lock.specs.Locks.{meaning};
ghost use Rattle.lock_check.specs.Findings.{NeverOverdue, EverOverdue, ShownOverdue, MoreUnlikeThan, MoreDifferentThan, IsTooMuch, Room, checked};

use crate::finding::{Finding, Verdict};
use canal_lock::{Chamber, Lock};
use explorer::{Node, Visit, explore};

// Finds out whether a boat can ever be overdue at the lock, within the lent memory.
pub fn check_lock(lock: &Lock, nodes: &mut [Node<Chamber>], visits: &mut [Visit]) -> Finding
    ensures never_overdue { result.verdict ≡ Verdict.Safe → NeverOverdue lock.now }
    ensures ever_overdue { result.verdict ≡ Verdict.Unsafe → EverOverdue lock.now }
    ensures shown_overdue { result.verdict ≡ Verdict.Unsafe → ShownOverdue lock.now (take result.visits visits.new) }
    ensures closed { result.verdict ≡ Verdict.Safe → Closed (meaning lock.now) (states (take result.nodes nodes.new)) }
    ensures nodes_full { result.verdict ≡ Verdict.NodesFull → MoreUnlikeThan lock.now (length nodes.old) }
    ensures visits_full { result.verdict ≡ Verdict.VisitsFull → MoreDifferentThan lock.now (length visits.old) }
    ensures too_large { result.verdict ≡ Verdict.TooLarge → IsTooMuch (length nodes.old) (length visits.old) }
    ensures too_large_leaves { IsTooMuch (length nodes.old) (length visits.old) → (result.verdict ≡ Verdict.TooLarge) × (result.nodes ≡ 0) × (result.visits ≡ 0) × (nodes.new ≡ nodes.old) × (visits.new ≡ visits.old) }
    ensures safe_found { Room lock.now (length nodes.old) (length visits.old) → NeverOverdue lock.now → result.verdict ≡ Verdict.Safe }
    ensures unsafe_found { Room lock.now (length nodes.old) (length visits.old) → EverOverdue lock.now → result.verdict ≡ Verdict.Unsafe }
    ensures answers { (result.verdict, take result.nodes nodes.new, take result.visits visits.new) ≡ checked lock.now (length nodes.old) (length visits.old) }
    ensures within { (result.nodes ≤ length nodes.old) × (result.visits ≤ length visits.old) }
    ensures untouched { drop result.visits visits.new ≡ drop result.visits visits.old }
    ensures every_visit_tells { EveryVisitTells (meaning lock.now) (left_by (meaning lock.now) (length nodes.old) (length visits.old) nodes.new result.nodes visits.new result.visits) }
    ensures antichain { Antichain (meaning lock.now) (length nodes.old) (length visits.old) (left_by (meaning lock.now) (length nodes.old) (length visits.old) nodes.new result.nodes visits.new result.visits) }
{
    let (outcome, nodes, visits) = explore(lock, nodes, visits);
    Finding {
        verdict: Verdict::from(outcome),
        nodes,
        visits,
    }
}
