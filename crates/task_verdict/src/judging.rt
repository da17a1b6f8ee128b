// Judging a table of tasks as a system of its kind.
ghost use Rattle.std.specs.Prelude.{◌≡◌, true, IfOk};
ghost use Rattle.task_table.specs.Tables.{tasks_of};
ghost use Rattle.job_state.specs.States.{late};
ghost use Rattle.task_laws.specs.Systems.{meaning as means};
ghost use Rattle.task_verdict.specs.Judgements.{Judged};
ghost use Rattle.task_verdict.specs.Misses.{NeverMisses};

use crate::finding::{LateRun, TaskJudgement};
use explorer::{Node, Visit};
use job_state::State;
use jobs::Kind;
use policies::Policy;
use std::alloc::{AllocError, Global};
use task_systems::TaskSystem;
use task_table::table::TaskTable;
use transition::System;
use verdict::{Judgement, Verdict, judge};

// Finds out whether a run of the tasks is ever late, within the lent memory, and how it comes to that.
pub fn judge_tasks<P: Policy + Copy>(
    heap: Global,
    kind: Kind,
    table: &TaskTable,
    policy: P,
    nodes: &mut [Node<State>],
    visits: &mut [Visit],
) -> Result<TaskJudgement, AllocError>
    ensures judged { Judged (means (P.Policy.picks policy) kind (tasks_of table.now)) (record { nodes_before = nodes.old; visits_before = visits.old; nodes = nodes.new; visits = visits.new }) result }
    ensures never_misses { IfOk result (λ j. j.verdict ≡ Verdict.Schedulable → NeverMisses (P.Policy.picks policy) kind (tasks_of table.now)) }
    ensures misses { IfOk result (λ j. (f : LateRun) → j.verdict ≡ Verdict.Unschedulable f → late (tasks_of table.now) f.state ≡ true) }
{
    let system = TaskSystem::of(kind, *table, policy);
    judge_system(heap, &system, nodes, visits)
}

// Judges a system whose states are those of tasks, with no table in sight.
fn judge_system<S: System<State = State> + Copy>(
    heap: Global,
    system: &S,
    nodes: &mut [Node<State>],
    visits: &mut [Visit],
) -> Result<TaskJudgement, AllocError>
    ensures { Judged (S.System.meaning system.now) (record { nodes_before = nodes.old; visits_before = visits.old; nodes = nodes.new; visits = visits.new }) result }
{
    let Judgement {
        verdict,
        nodes: node_count,
        visits: visit_count,
    } = judge(heap, system, nodes, visits)?;
    Ok(Judgement {
        verdict: verdict.retold(),
        nodes: node_count,
        visits: visit_count,
    })
}
