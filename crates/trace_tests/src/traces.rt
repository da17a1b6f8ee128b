// Tracing visits that are made by hand, sound and broken.
use exploration::Visit;
use exploration::trace_refusal::TraceRefusal;
use numbered_refusals::Numbered;
use std::alloc::Global;
use std::process::Abort;
use std::str::SplitWhitespace;
use std::test::Fail;
use tracing::trace;

// what stands in the list before tracing
const UNUSED: u8 = 99;

// the visit's number and the answer, which is how many events are told or the refusal's number, then the whole
// list after tracing, then the visits, each by its parent and its event
const TRACES: &str = "1 0 : : 0,0
3 2 : 1 2 : 0,0 1,1 2,2
3 2 : 1 2 99 99 : 0,0 1,1 2,2
4 2 : 2 10 : 0,0 1,1 1,2 3,10
4 1 : 2 99 99 : 0,0 1,1 0,0 3,2
0 13 : 99 99 99 99 : 0,0 1,1
3 13 : 99 99 99 99 : 0,0 1,1
0 13 : :
1 13 : 99 99 99 99 :
2 14 : 99 99 99 99 : 0,0 2,1
2 14 : 99 99 99 99 : 0,0 3,1 1,1
2 14 : 99 99 99 99 : 0,1 1,1
2 14 : 99 99 99 99 : 0,0 1,0
2 14 : 99 99 99 99 : 0,0 1,11
3 1 : 1 99 99 99 : 0,0 1,11 1,1
1 14 : : 1,1
3 15 : 99 : 0,0 1,1 2,2
3 15 : : 0,0 1,1 2,2
3 14 : : 0,0 1,11 2,2";

// The next word as a number: three lines, as in other tests, since a crate for them would be longer.
fn number(words: &mut SplitWhitespace<'_>) -> Result<usize, Fail> {
    let word = words.next().ok_or("a word is missing")?;
    Ok(word.parse::<usize>()?)
}

// The whole list of a case.
fn list_of(heap: Global, text: &str) -> Result<Vec<u8>, Fail> {
    let mut list = Vec::new(heap);
    for word in text.split_whitespace() {
        list.push(word.parse::<u8>()?)?;
    }
    Ok(list)
}

// The visits of a case.
fn visits_of(heap: Global, text: &str) -> Result<Vec<Visit>, Fail> {
    let mut visits = Vec::new(heap);
    for word in text.split_whitespace() {
        let (parent, event) = word.split_once(',').ok_or("no event")?;
        visits.push(Visit {
            parent: parent.parse::<usize>()?,
            event: event.parse::<u8>()?,
        })?;
    }
    Ok(visits)
}

// How many events are told, or the refusal's number.
fn told(answer: Result<usize, TraceRefusal>) -> usize {
    answer.unwrap_or_else(|refusal| usize::from(refusal.number()))
}

// Traces the visit, and compares the answer and the whole list after it.
fn answers_so(
    rt: &impl Abort,
    heap: Global,
    line: &str,
    asked: &str,
    left: &[u8],
    visits: &[Visit],
) -> Result<(), Fail> {
    let mut words = asked.split_whitespace();
    let asked = number(&mut words)?;
    let answer = number(&mut words)?;
    let mut list = vec![in heap; UNUSED; left.len()]?;
    assert_eq!(rt; told(trace(visits, asked, &mut list)), answer, "{line}");
    assert_eq!(rt; list.as_slice(), left, "{line}");
    Ok(())
}

// Traces one case.
fn traces_so(rt: &impl Abort, heap: Global, line: &str) -> Result<(), Fail> {
    let (asked, rest) = line.split_once(':').ok_or("no list")?;
    let (left, visits) = rest.split_once(':').ok_or("no visits")?;
    let left = list_of(heap, left)?;
    let visits = visits_of(heap, visits)?;
    answers_so(rt, heap, line, asked, &left, &visits)
}

#[test]
fn visits_are_traced_so(rt: HostRuntime) -> Result<(), Fail> {
    for line in TRACES.lines() {
        traces_so(&rt, rt.alloc(), line)?;
    }
    Ok(())
}
