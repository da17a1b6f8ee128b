// Which tasks a draft takes, and what a table asks of the processor.
use crate::cases::parts;
use numbered_refusals::told;
use std::alloc::Global;
use std::process::Abort;
use std::test::Fail;
use table_text::line::read_task;
use task_load::load::load;
use task_table::draft::Draft;
use task_table::mode::Mode;
use task_table::task::Task;

// A line with a task, and the number that adding it is answered with.
const ROWS: &str = "\
L 127 127 1 1 0 => 0
H 127 127 1 127 127 => 0
L 1 1 1 1 0 => 0
L 128 127 1 1 0 => 2
L 3 4 1 1 0 => 2
L 3 3 1 2 0 => 2
H 3 3 1 2 0 => 0
H 3 3 2 1 0 => 2
H 3 3 0 1 0 => 2
H 3 2 1 3 0 => 2
H 3 3 1 1 128 => 2
H 0 0 0 0 0 => 2
";

fn task_of(line: &str) -> Result<Task, Fail> {
    Ok(read_task(line.as_bytes())?.ok_or("no task")?)
}

#[test]
fn rows(rt: HostRuntime) -> Result<(), Fail> {
    for row in ROWS.lines() {
        let (line, wanted) = parts(row)?;
        let mut draft = Draft::new();
        let got = told(&draft.add(task_of(line.trim_end())?));
        assert_eq!(rt; got, wanted.parse::<u8>()?, "{}", row);
    }
    Ok(())
}

#[test]
fn ninth_task(rt: HostRuntime) -> Result<(), Fail> {
    let right = task_of("L 2 2 1 1 0")?;
    let wrong = task_of("L 2 3 1 1 0")?;
    let mut draft = Draft::new();
    for _ in 0..8 {
        assert_eq!(rt; told(&draft.add(right)), 0);
    }
    assert_eq!(rt; told(&draft.add(right)), 1, "a ninth right task");
    assert_eq!(rt; told(&draft.add(wrong)), 1, "a ninth wrong task");
    let table = draft.seal();
    assert_eq!(rt; table.len(), 8);
    assert!(rt; table.task(0).is_none() && table.task(9).is_none());
    assert!(rt; table.task(1).is_some() && table.task(8).is_some());
    Ok(())
}

// Tasks, and their load in low and in high mode.
const LOADS: &str = "\
=> 0 0
L 2 2 1 1 0 => 1/2 0
H 3 3 2 3 0; L 3 3 2 2 0 => 4/3 1
H 10 8 2 4 0; H 20 20 3 6 0; H 100 40 4 8 5; L 50 50 8 8 0; L 100 90 6 6 20 => 61/100 39/50
H 127 127 1 1 0; H 126 126 1 1 0; H 125 125 1 1 0; H 124 124 1 1 0; H 123 123 1 1 0; H 121 121 1 1 0; H 119 119 1 1 0; H 113 113 1 1 0 => 11062798406417/168839680036500 11062798406417/168839680036500
";

fn loads(rt: &impl Abort, heap: Global, tasks: &str) -> Result<String, Fail> {
    let mut draft = Draft::new();
    for line in tasks.split(';') {
        if let Some(task) = read_task(line.as_bytes())? {
            assert_eq!(rt; told(&draft.add(task)), 0);
        }
    }
    let table = draft.seal();
    let low = load(&table, Mode::Low);
    let high = load(&table, Mode::High);
    Ok(format!(in heap; "{low} {high}")?)
}

#[test]
fn loads_are_exact(rt: HostRuntime) -> Result<(), Fail> {
    for case in LOADS.lines() {
        let (tasks, wanted) = parts(case)?;
        let got = loads(&rt, rt.alloc(), tasks)?;
        assert_eq!(rt; got.as_str(), wanted, "{}", case);
    }
    Ok(())
}
