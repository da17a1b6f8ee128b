// A case: a table with '|' between its rows, a kind, a policy, how much memory is lent, and the verdict.
use crate::policy_words::policy_named;
use crate::verdicts::told;
use explorer::{Node, Visit};
use job_state::State;
use jobs::Kind;
use policies::Choice;
use std::alloc::Global;
use std::process::Abort;
use std::str::SplitWhitespace;
use std::test::Fail;
use table_text::table::read_table;
use task_table::table::TaskTable;
use task_verdict::{TaskJudgement, judge_tasks};

// How a table is to be judged.
#[derive(Clone, Copy)]
struct Asked {
    kind: Kind,
    policy: Choice,
    nodes: usize,
    visits: usize,
}

fn table_of(heap: Global, rows: &str) -> Result<TaskTable, Fail> {
    let lines = rows
        .bytes()
        .map(|byte| if byte == b'|' { b'\n' } else { byte });
    let bytes = lines.collect::<Vec<u8>>(heap)?;
    read_table(heap, &bytes).map_err(|_| Fail::new("no table"))
}

// Written out, so that tests of verdicts do not stand on words of command lines.
fn kind_named(word: &str) -> Option<Kind> {
    match word {
        "sporadic" => Some(Kind::Sporadic),
        "periodic" => Some(Kind::Periodic),
        _ => None,
    }
}

// Three lines, as in other tests: a crate for them would be longer.
fn number(words: &mut SplitWhitespace<'_>) -> Result<usize, Fail> {
    let word = words.next().ok_or("a number is missing")?;
    Ok(word.parse::<usize>()?)
}

// What the words ask for.
fn question(words: &str) -> Result<Asked, Fail> {
    let mut words = words.split_whitespace();
    let kind = words.next().ok_or("a kind is missing")?;
    let order = words.next().ok_or("an order is missing")?;
    let layers = words.next().ok_or("the layers are missing")?;
    let nodes = number(&mut words)?;
    let visits = number(&mut words)?;
    Ok(Asked {
        kind: kind_named(kind).ok_or("no such kind")?,
        policy: policy_named(order, layers).ok_or("no such policy")?,
        nodes,
        visits,
    })
}

fn judged(heap: Global, table: &TaskTable, asked: Asked) -> Result<TaskJudgement, Fail> {
    let state = State::first(asked.kind, table.tasks());
    // Not START: exploring is to look at no visit that it did not write.
    let visit = Visit {
        parent: 9,
        event: 9,
    };
    let mut nodes = vec![in heap; Node::unused(state); asked.nodes]?;
    let mut visits = vec![in heap; visit; asked.visits]?;
    let judgement = judge_tasks(
        heap,
        asked.kind,
        table,
        asked.policy,
        &mut nodes,
        &mut visits,
    )?;
    Ok(judgement)
}

fn ends_so(rt: &impl Abort, heap: Global, case: &str) -> Result<(), Fail> {
    let (rows, rest) = case.split_once("; ").ok_or("no semicolon")?;
    let (words, wanted) = rest.split_once(" => ").ok_or("no arrow")?;
    let table = table_of(heap, rows)?;
    let judgement = judged(heap, &table, question(words)?)?;
    let text = told(heap, &table, &judgement)?;
    assert_eq!(rt; text.as_str(), wanted, "{}", case);
    Ok(())
}

// Judges every case of the text, and compares the verdicts.
pub(crate) fn end_so(rt: &impl Abort, heap: Global, cases: &str) -> Result<(), Fail> {
    for case in cases.lines() {
        ends_so(rt, heap, case)?;
    }
    Ok(())
}
