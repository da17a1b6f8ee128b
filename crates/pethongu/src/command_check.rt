// 'pethongu check': whether a run of the table is ever late, and why.
use crate::setup::Setup;
use crate::trouble::Trouble;
use command_options::settings::Settings;
use command_reading::bounds::CheckBounds;
use explorer::{Node, Visit};
use std::alloc::{AllocError, Global};
use std::process::ExitCode;
use std::{fmt, io};
use table_source::Source;
use task_verdict::{LateRun, TaskJudgement, TaskVerdict, judge_tasks, late_tasks};
use verdict_print::{AnswerLine, Grounds, NumberLine};

// Judges the table, and prints the verdict with its grounds.
pub(crate) fn check_table<'a>(
    rt: &HostRuntime,
    source: Source<'a>,
    settings: &Settings,
    bounds: &CheckBounds,
) -> Result<ExitCode, Trouble<'a>> {
    let setup = Setup::read(rt, source, settings)?;
    if !settings.porcelain && !bounds.quiet {
        tell_start(rt, bounds)?;
    }
    let judgement = judged(rt.alloc(), &setup, bounds)?;
    if settings.porcelain {
        print_answer(rt, &setup, &judgement)?;
    } else {
        setup.print_head(rt)?;
        tell_judgement(rt, &setup, bounds, &judgement)?;
    }
    match judgement.verdict {
        TaskVerdict::Schedulable => Ok(ExitCode::SUCCESS),
        _ if bounds.require_schedulable => Ok(ExitCode::FAILURE),
        _ => Ok(ExitCode::SUCCESS),
    }
}

// Whoever waits is told for what.
fn tell_start(rt: &HostRuntime, bounds: &CheckBounds) -> io::Result<()> {
    let nodes = bounds.nodes;
    let visits = bounds.visits;
    eprintln!(rt; "exploring, with {nodes} nodes and {visits} visits at most")
}

fn judged(
    heap: Global,
    setup: &Setup<'_>,
    bounds: &CheckBounds,
) -> Result<TaskJudgement, AllocError> {
    let mut nodes = vec![in heap; Node::unused(setup.first()); bounds.nodes]?;
    let mut visits = vec![in heap; Visit::START; bounds.visits]?;
    let kind = setup.settings.kind;
    judge_tasks(
        heap,
        kind,
        &setup.table,
        setup.policy,
        &mut nodes,
        &mut visits,
    )
}

// The lines for scripts.
fn print_answer(
    rt: &HostRuntime,
    setup: &Setup<'_>,
    judgement: &TaskJudgement,
) -> Result<(), Trouble<'static>> {
    println!(rt; "{}", AnswerLine(judgement))?;
    if let TaskVerdict::Unschedulable(late) = &judgement.verdict {
        let numbers = late_tasks(rt.alloc(), &setup.table, &late.state)?;
        print_numbers(rt, "trace", &late.events)?;
        print_numbers(rt, "forced", &late.forced)?;
        print_numbers(rt, "late", &numbers)?;
    }
    Ok(())
}

fn print_numbers<T: fmt::Display>(
    rt: &HostRuntime,
    word: &'static str,
    numbers: &[T],
) -> io::Result<()> {
    println!(rt; "{}", NumberLine { word, numbers })
}

// The verdict with its grounds, and the failing run where there is one.
fn tell_judgement(
    rt: &HostRuntime,
    setup: &Setup<'_>,
    bounds: &CheckBounds,
    judgement: &TaskJudgement,
) -> Result<(), Trouble<'static>> {
    let grounds = Grounds {
        judgement,
        lent_nodes: bounds.nodes,
        lent_visits: bounds.visits,
    };
    print!(rt; "{grounds}")?;
    if let TaskVerdict::Unschedulable(late) = &judgement.verdict {
        tell_late_run(rt, setup, late)?;
    }
    Ok(())
}

// The failing run, its forced events told apart.
fn tell_late_run(
    rt: &HostRuntime,
    setup: &Setup<'_>,
    late: &LateRun,
) -> Result<(), Trouble<'static>> {
    let mut events = late.events.clone()?;
    events.extend_from_slice(&late.forced)?;
    let steps = setup.record(rt.alloc(), &events)?;
    println!(rt; "")?;
    setup.draw_run(rt, &steps, late.events.len())
}
