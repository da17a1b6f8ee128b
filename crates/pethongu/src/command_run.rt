// 'pethongu run': events made on a new run of a table.
use crate::setup::Setup;
use crate::trouble::Trouble;
use command_options::settings::Settings;
use job_state::State;
use run_words::StateWords;
use std::io;
use table_source::Source;
use task_runs::TaskStep;

// Makes the events on a new run of the table, and prints what comes of each.
pub(crate) fn run_events<'a>(
    rt: &HostRuntime,
    source: Source<'a>,
    settings: &Settings,
    events: &[u8],
) -> Result<(), Trouble<'a>> {
    let setup = Setup::read(rt, source, settings)?;
    let steps = setup.record(rt.alloc(), events)?;
    if settings.porcelain {
        print_lines(rt, setup.table.len(), setup.first(), &steps)?;
    } else {
        setup.print_head(rt)?;
        setup.draw_run(rt, &steps, steps.len())?;
    }
    Ok(())
}

// The lines for scripts: the first state, and then one line for each event.
fn print_lines(rt: &HostRuntime, tasks: usize, first: State, steps: &[TaskStep]) -> io::Result<()> {
    let state = StateWords {
        tasks,
        state: first,
    };
    println!(rt; "event - answer 0 state {state}")?;
    for step in steps {
        let event = step.event;
        let answer = step.told();
        let state = StateWords {
            tasks,
            state: step.state,
        };
        println!(rt; "event {event} answer {answer} state {state}")?;
    }
    Ok(())
}
