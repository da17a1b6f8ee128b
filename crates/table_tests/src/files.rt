// What table files of all kinds say.
use crate::cases::parts;
use std::alloc::Global;
use std::test::Fail;
use table_print::faults::Told;
use table_text::reading::ReadError;
use table_text::table::read_table;

// A file, with '|' for a newline, '~' for a carriage return, '^' for a tab and '?' for a byte
// that is no text, and what is said of it: how many tasks it has, or its first fault.
const FILES: &str = "\
=> 0 tasks
H 3 3 2 3 0 => 1 tasks
H 3 3 2 3 0| => 1 tasks
H 3 3 2 3 0~|~|L 3 3 2 2 0~| => 2 tasks
^ H^3  3 2^3 0 ^ => 1 tasks
# nothing but a comment => 0 tasks
H 3 3 2 3 0 # said|#H 3 3 2 3 0|L 3 3 2 2 0#x => 2 tasks
# ??? => 0 tasks
||| => 0 tasks
L 007 7 1 1 000 => 1 tasks
H 3 3 2 3 => line 1: found 5 words, expected 6: H or L, period, deadline, low budget, high budget, offset
|H 3 3 2 3 0 0 => line 2: found 7 words, expected 6: H or L, period, deadline, low budget, high budget, offset
h 3 3 2 3 0 => line 1: found \"h\", expected H or L for the criticality
HL 3 3 2 3 0 => line 1: found \"HL\", expected H or L for the criticality
?H 3 3 2 3 0 => line 1: found \"\\xffH\", expected H or L for the criticality
H 256 3 2 3 0 => line 1: found \"256\", expected a number from 0 to 255 for the period
H 3 -3 2 3 0 => line 1: found \"-3\", expected a number from 0 to 255 for the deadline
H 3 3 +2 3 0 => line 1: found \"+2\", expected a number from 0 to 255 for the low budget
H 3 3 2 3.0 0 => line 1: found \"3.0\", expected a number from 0 to 255 for the high budget
H 3 3 2 3 00000000000000000000000000000000000000000000000000 => 1 tasks
H 3 3 2 3 11111111111111111111111111111111111111111111111111 => line 1: found \"1111111111111111111111111111111111111111... (10 bytes more)\", expected a number from 0 to 255 for the offset
H 3 3 2 3 0|||L 3 3 1 2 0 => line 4: refusal 2: these cannot be the figures of a task: found L 3 3 1 2 0, expected 1 <= low budget <= high budget <= deadline <= period <= 127, offset <= 127, and equal budgets for L
";

// The byte that a sign of a file stands for.
fn byte_of(sign: u8) -> u8 {
    match sign {
        b'|' => b'\n',
        b'~' => b'\r',
        b'^' => b'\t',
        b'?' => 0xff,
        _ => sign,
    }
}

fn said_of(heap: Global, bytes: &[u8]) -> Result<String, Fail> {
    match read_table(heap, bytes) {
        Ok(table) => Ok(format!(in heap; "{} tasks", table.len())?),
        Err(ReadError::Wrong(faults)) => {
            let fault = *faults.first().ok_or("no fault")?;
            Ok(format!(in heap; "{}", Told { bytes, fault })?)
        }
        Err(ReadError::TooLong) => Err(Fail::new("too long")),
        Err(ReadError::NoMemory) => Err(Fail::new("no memory")),
    }
}

#[test]
fn files(rt: HostRuntime) -> Result<(), Fail> {
    let heap = rt.alloc();
    for case in FILES.lines() {
        let (file, wanted) = parts(case)?;
        let bytes = file.bytes().map(byte_of).collect::<Vec<u8>>(heap)?;
        let got = said_of(heap, &bytes)?;
        assert_eq!(rt; got.as_str(), wanted, "{}", case);
    }
    Ok(())
}

#[test]
fn line_of_a_megabyte(rt: HostRuntime) -> Result<(), Fail> {
    let heap = rt.alloc();
    let bytes = vec![in heap; b'7'; 1_000_000]?;
    let got = said_of(heap, &bytes)?;
    let wanted =
        "line 1: found 1 word, expected 6: H or L, period, deadline, low budget, high budget, offset";
    assert_eq!(rt; got.as_str(), wanted);
    Ok(())
}
