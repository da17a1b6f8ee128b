// The verdict on tasks in words.
use std::alloc::Global;
use std::fmt;
use std::fmt::Write;
use std::test::Fail;
use task_table::table::TaskTable;
use task_verdict::{LateRun, TaskJudgement, TaskVerdict, late_tasks};

fn tell_numbers<T: fmt::Display>(text: &mut String, numbers: &[T]) -> Result<(), Fail> {
    for number in numbers {
        write!(text, " {number}")?;
    }
    Ok(())
}

// Tells the events, the forced ones, and who is late then.
fn tell_run(heap: Global, text: &mut String, table: &TaskTable, run: &LateRun) -> Result<(), Fail> {
    text.push_str(" by")?;
    tell_numbers(text, &run.events)?;
    text.push_str(" then")?;
    tell_numbers(text, &run.forced)?;
    text.push_str(" late")?;
    tell_numbers(text, &late_tasks(heap, table, &run.state)?)
}

// The verdict, how many nodes and visits are in use, and the run that is late.
pub(crate) fn told(
    heap: Global,
    table: &TaskTable,
    judgement: &TaskJudgement,
) -> Result<String, Fail> {
    let word = match judgement.verdict {
        TaskVerdict::Schedulable => "schedulable",
        TaskVerdict::Unschedulable(_) => "unschedulable",
        TaskVerdict::TooLarge => "large",
        TaskVerdict::VisitsFull => "visits",
        TaskVerdict::NodesFull => "nodes",
    };
    let nodes = judgement.nodes;
    let visits = judgement.visits;
    let mut text = format!(in heap; "{word} {nodes} {visits}")?;
    if let TaskVerdict::Unschedulable(run) = &judgement.verdict {
        tell_run(heap, &mut text, table, run)?;
    }
    Ok(text)
}
