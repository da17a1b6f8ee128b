// Judging a system by exploring it, and by a run that is late where there is one.
ghost use Rattle.std.specs.Prelude.{◌≡◌, ◌≤◌, length, take, drop, IfOk, Ok, MatchResult, OnErr};
ghost use Rattle.exploration.specs.Stores.{states};
ghost use Rattle.exploration.specs.Exploring.{explored};
ghost use Rattle.exploration.specs.Claims.{IsTooLarge, Enough, EverLate, ShownLate, NodesHonestlyFull, VisitsHonestlyFull, EveryVisitTells, Closed, Antichain};
ghost use Rattle.explorer.specs.Held.{shown, left_by};
ghost use Rattle.verdict.specs.Moments.{RunsNeverLate};
ghost use Rattle.verdict.specs.Failures.{Fails};
ghost use Rattle.verdict.specs.Verdicts.{outcome_of, Decided, InFront};

use crate::failing::make_late;
use crate::judgement::{Failure, Judgement, Verdict};
use explorer::{Node, Outcome, Visit, explore};
use std::alloc::{AllocError, Global};
use transition::System;

// Finds out whether a run of the system is ever late, within the lent memory, and hands back a late run if so.
pub fn judge<S: System + Copy>(
    heap: Global,
    system: &S,
    nodes: &mut [Node<S::State>],
    visits: &mut [Visit],
) -> Result<Judgement<Failure<S>>, AllocError>
    ensures never_late { IfOk result (λ j. j.verdict ≡ Verdict.Schedulable → RunsNeverLate S.System.meaning system.now) }
    ensures closed { IfOk result (λ j. j.verdict ≡ Verdict.Schedulable → Closed (S.System.meaning system.now) (states (take j.nodes nodes.new))) }
    ensures shown_late { IfOk result (λ j. (f : Failure S S.State S.Reason) → j.verdict ≡ Verdict.Unschedulable f → Fails S.System.meaning system.now (take j.visits visits.new) f.events.items f.forced.items f.run) }
    ensures ever_late { MatchResult result (λ j. (f : Failure S S.State S.Reason) → j.verdict ≡ Verdict.Unschedulable f → EverLate (S.System.meaning system.now)) (λ _. EverLate (S.System.meaning system.now)) }
    ensures nodes_honestly_full { IfOk result (λ j. j.verdict ≡ Verdict.NodesFull → NodesHonestlyFull (S.System.meaning system.now) (length nodes.old)) }
    ensures visits_honestly_full { IfOk result (λ j. j.verdict ≡ Verdict.VisitsFull → VisitsHonestlyFull (S.System.meaning system.now) (length visits.old)) }
    ensures too_large { IsTooLarge (length nodes.old) (length visits.old) → (result ≡ Ok (record { verdict = Verdict.TooLarge; nodes = 0; visits = 0 })) × (nodes.new ≡ nodes.old) × (visits.new ≡ visits.old) }
    ensures too_large_only { IfOk result (λ j. j.verdict ≡ Verdict.TooLarge → IsTooLarge (length nodes.old) (length visits.old)) }
    ensures decides { IfOk result (λ j. Enough (S.System.meaning system.now) (length nodes.old) (length visits.old) → Decided S.System.meaning system.now j.verdict) }
    ensures answers { IfOk result (λ j. (outcome_of j.verdict, take j.nodes nodes.new, take j.visits visits.new) ≡ shown (explored (S.System.meaning system.now) (length nodes.old) (length visits.old))) }
    ensures within { IfOk result (λ j. (j.nodes ≤ length nodes.old) × (j.visits ≤ length visits.old)) }
    ensures untouched { IfOk result (λ j. drop j.visits visits.new ≡ drop j.visits visits.old) }
    ensures every_visit_tells { IfOk result (λ j. EveryVisitTells (S.System.meaning system.now) (left_by (S.System.meaning system.now) (length nodes.old) (length visits.old) nodes.new j.nodes visits.new j.visits)) }
    ensures antichain { IfOk result (λ j. Antichain (S.System.meaning system.now) (length nodes.old) (length visits.old) (left_by (S.System.meaning system.now) (length nodes.old) (length visits.old) nodes.new j.nodes visits.new j.visits)) }
    ensures no_memory { OnErr result (InFront Outcome.Unschedulable (explored (S.System.meaning system.now) (length nodes.old) (length visits.old)) nodes.new visits.new) }
{
    let (outcome, node_count, visit_count) = explore(system, nodes, visits);
    let verdict = verdict_on(heap, system, outcome, &visits[0..visit_count])?;
    Ok(Judgement {
        verdict,
        nodes: node_count,
        visits: visit_count,
    })
}

// The verdict that the outcome of exploring stands for.
fn verdict_on<S: System + Copy>(
    heap: Global,
    system: &S,
    outcome: Outcome,
    visits: &[Visit],
) -> Result<Verdict<Failure<S>>, AllocError>
    requires { outcome ≡ Outcome.Unschedulable → ShownLate (S.System.meaning system.now) visits.now }
    ensures outcome { IfOk result (λ v. outcome_of v ≡ outcome) }
    ensures fails { IfOk result (λ v. (f : Failure S S.State S.Reason) → v ≡ Verdict.Unschedulable f → Fails S.System.meaning system.now visits.now f.events.items f.forced.items f.run) }
    ensures no_memory { OnErr result (outcome ≡ Outcome.Unschedulable) }
{
    match outcome {
        Outcome::Schedulable => Ok(Verdict::Schedulable),
        Outcome::Unschedulable => {
            let failure = make_late(heap, system, visits)?;
            Ok(Verdict::Unschedulable(failure))
        }
        Outcome::TooLarge => Ok(Verdict::TooLarge),
        Outcome::VisitsFull => Ok(Verdict::VisitsFull),
        Outcome::NodesFull => Ok(Verdict::NodesFull),
    }
}
