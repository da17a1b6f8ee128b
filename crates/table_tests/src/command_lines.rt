// What command lines ask for.
use crate::cases::parts;
use commands::command::read_words;
use std::alloc::Global;
use std::test::Fail;

// Words, and what they ask for.
const LINES: &str = "\
=> Ok(Help)
help => Ok(Help)
help me => Err(OneTooMany(\"me\"))
table => Ok(Table(Input))
table - => Ok(Table(Input))
table a.table => Ok(Table(File(\"a.table\")))
table --loud a.table => Err(UnknownOption(\"--loud\"))
table a.table b.table => Err(OneTooMany(\"b.table\"))
tables => Err(UnknownCommand(\"tables\"))
";

fn asked(heap: Global, line: &str) -> Result<String, Fail> {
    let words: Vec<&str> = line.split_whitespace().collect(heap)?;
    Ok(format!(in heap; "{:?}", read_words(&words))?)
}

#[test]
fn lines(rt: HostRuntime) -> Result<(), Fail> {
    for case in LINES.lines() {
        let (line, wanted) = parts(case)?;
        let got = asked(rt.alloc(), line)?;
        assert_eq!(rt; got.as_str(), wanted, "{}", case);
    }
    Ok(())
}
