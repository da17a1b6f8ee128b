// What command lines ask for.
use command_reading::bounds::CheckBounds;
use command_reading::misuse::Misuse;
use command_words::command::Command;
use command_words::words::read_words;
use std::alloc::Global;
use std::test::Fail;

// Words, where '' is the empty one, and what they ask for.
const LINES: &str = "\
=> Ok(Help)
help => Ok(Help)
help me => Err(OneTooMany(\"me\"))
table => Ok(Table(Input))
table - => Ok(Table(Input))
table a.table => Ok(Table(File(\"a.table\")))
table '' => Ok(Table(File(\"\")))
table --loud a.table => Err(UnknownOption(\"--loud\"))
table a.table b.table => Err(OneTooMany(\"b.table\"))
table - - => Err(OneTooMany(\"-\"))
table --porcelain => Err(NotHere(\"--porcelain\"))
table a.table --events 1 => Err(NotHere(\"--events\"))
tables => Err(UnknownCommand(\"tables\"))
--porcelain run => Err(UnknownCommand(\"--porcelain\"))
run --events 1 => Ok(Run { source: Input, settings: Settings { kind: Sporadic, order: Deadline, ranks: None, high_first: false, shorten: None, porcelain: false }, events: [1] })
run a.table --events 1,2,9,10 => Ok(Run { source: File(\"a.table\"), settings: Settings { kind: Sporadic, order: Deadline, ranks: None, high_first: false, shorten: None, porcelain: false }, events: [1, 2, 9, 10] })
run --events 1 a.table => Ok(Run { source: File(\"a.table\"), settings: Settings { kind: Sporadic, order: Deadline, ranks: None, high_first: false, shorten: None, porcelain: false }, events: [1] })
run - --events 1 => Ok(Run { source: Input, settings: Settings { kind: Sporadic, order: Deadline, ranks: None, high_first: false, shorten: None, porcelain: false }, events: [1] })
run --events '' => Ok(Run { source: Input, settings: Settings { kind: Sporadic, order: Deadline, ranks: None, high_first: false, shorten: None, porcelain: false }, events: [] })
run --events 007,000255 => Ok(Run { source: Input, settings: Settings { kind: Sporadic, order: Deadline, ranks: None, high_first: false, shorten: None, porcelain: false }, events: [7, 255] })
run --events 1 --events 2,3 => Ok(Run { source: Input, settings: Settings { kind: Sporadic, order: Deadline, ranks: None, high_first: false, shorten: None, porcelain: false }, events: [2, 3] })
run --kind periodic --policy laxity --high-first --porcelain --events 1 => Ok(Run { source: Input, settings: Settings { kind: Periodic, order: Laxity, ranks: None, high_first: true, shorten: None, porcelain: true }, events: [1] })
run --kind periodic --kind sporadic --events 1 => Ok(Run { source: Input, settings: Settings { kind: Sporadic, order: Deadline, ranks: None, high_first: false, shorten: None, porcelain: false }, events: [1] })
run --policy fixed --events 1 => Ok(Run { source: Input, settings: Settings { kind: Sporadic, order: Fixed, ranks: None, high_first: false, shorten: None, porcelain: false }, events: [1] })
run --ranks 2,1 --events 1 --policy fixed => Ok(Run { source: Input, settings: Settings { kind: Sporadic, order: Fixed, ranks: Some([2, 1]), high_first: false, shorten: None, porcelain: false }, events: [1] })
run --policy fixed --ranks '' --shorten 0 --events 1 => Ok(Run { source: Input, settings: Settings { kind: Sporadic, order: Fixed, ranks: Some([]), high_first: false, shorten: Some([0]), porcelain: false }, events: [1] })
run --events 1 --shorten 255,1 --policy laxity => Ok(Run { source: Input, settings: Settings { kind: Sporadic, order: Laxity, ranks: None, high_first: false, shorten: Some([255, 1]), porcelain: false }, events: [1] })
run => Err(NoEvents)
run a.table --high-first => Err(NoEvents)
run --ranks 1,2 => Err(NoEvents)
run --ranks 1,2 --events 1 => Err(RanksNeedFixed)
run --policy deadline --ranks 1,2 --events 1 => Err(RanksNeedFixed)
run --policy fixed --ranks 1 --policy laxity --events 1 => Err(RanksNeedFixed)
run --events => Err(NoValue(Events))
run --events 1 --kind => Err(NoValue(Kind))
run --events --porcelain => Err(BadValue { option: Events, word: \"--porcelain\" })
run --events 1, => Err(BadValue { option: Events, word: \"1,\" })
run --events ,1 => Err(BadValue { option: Events, word: \",1\" })
run --events 1,,2 => Err(BadValue { option: Events, word: \"1,,2\" })
run --events , => Err(BadValue { option: Events, word: \",\" })
run --events 256 => Err(BadValue { option: Events, word: \"256\" })
run --events 1,+2 => Err(BadValue { option: Events, word: \"1,+2\" })
run --events -1 => Err(BadValue { option: Events, word: \"-1\" })
run --events 1;2 => Err(BadValue { option: Events, word: \"1;2\" })
run --events 99999999999999999999999999 => Err(BadValue { option: Events, word: \"99999999999999999999999999\" })
run --shorten 1,a --loud => Err(BadValue { option: Shorten, word: \"1,a\" })
run --ranks 1.5 => Err(BadValue { option: Ranks, word: \"1.5\" })
run --kind sporadically --events 1 => Err(BadValue { option: Kind, word: \"sporadically\" })
run --kind '' => Err(BadValue { option: Kind, word: \"\" })
run --policy edf => Err(BadValue { option: Policy, word: \"edf\" })
run --Kind periodic => Err(UnknownOption(\"--Kind\"))
run --kind=periodic => Err(UnknownOption(\"--kind=periodic\"))
run -h => Err(UnknownOption(\"-h\"))
run -- => Err(UnknownOption(\"--\"))
run a b --events => Err(OneTooMany(\"b\"))
check => Ok(Check { source: Input, settings: Settings { kind: Sporadic, order: Deadline, ranks: None, high_first: false, shorten: None, porcelain: false }, nodes: 4096, visits: 65535, require_schedulable: false, quiet: false })
check a.table --nodes 0 --visits 1000000 => Ok(Check { source: File(\"a.table\"), settings: Settings { kind: Sporadic, order: Deadline, ranks: None, high_first: false, shorten: None, porcelain: false }, nodes: 0, visits: 1000000, require_schedulable: false, quiet: false })
check --quiet --require-schedulable --porcelain --high-first => Ok(Check { source: Input, settings: Settings { kind: Sporadic, order: Deadline, ranks: None, high_first: true, shorten: None, porcelain: true }, nodes: 4096, visits: 65535, require_schedulable: true, quiet: true })
check --kind periodic --policy fixed --ranks 1,2 --shorten 3,4 --nodes 0007 --nodes 8 => Ok(Check { source: Input, settings: Settings { kind: Periodic, order: Fixed, ranks: Some([1, 2]), high_first: false, shorten: Some([3, 4]), porcelain: false }, nodes: 8, visits: 65535, require_schedulable: false, quiet: false })
check --events 1 => Err(NotHere(\"--events\"))
run --nodes 1 => Err(NotHere(\"--nodes\"))
run --quiet => Err(NotHere(\"--quiet\"))
table --require-schedulable => Err(NotHere(\"--require-schedulable\"))
check --ranks 1 => Err(RanksNeedFixed)
check --nodes 1000001 => Err(BadValue { option: Nodes, word: \"1000001\" })
check --visits -1 => Err(BadValue { option: Visits, word: \"-1\" })
check --visits 18446744073709551616 => Err(BadValue { option: Visits, word: \"18446744073709551616\" })
check --nodes '' => Err(BadValue { option: Nodes, word: \"\" })
check --nodes 1,2 => Err(BadValue { option: Nodes, word: \"1,2\" })
check --visits => Err(NoValue(Visits))
";

// The answer as it is written above, a check with its bounds one by one.
fn told(heap: Global, answer: &Result<Command<'_>, Misuse<'_>>) -> Result<String, Fail> {
    let Ok(
        Command::Check {
            source,
            settings,
            bounds,
        },
    ) = answer
    else {
        return Ok(format!(in heap; "{answer:?}")?);
    };
    let CheckBounds {
        nodes,
        visits,
        require_schedulable,
        quiet,
    } = bounds;
    Ok(format!(in heap;
        "Ok(Check {{ source: {source:?}, settings: {settings:?}, nodes: {nodes}, visits: {visits}, require_schedulable: {require_schedulable}, quiet: {quiet} }})"
    )?)
}

fn asked(heap: Global, line: &str) -> Result<String, Fail> {
    let words: Vec<&str> = line
        .split_whitespace()
        .map(|word| if word == "''" { "" } else { word })
        .collect(heap)?;
    told(heap, &read_words(heap, &words))
}

#[test]
fn lines(rt: HostRuntime) -> Result<(), Fail> {
    for case in LINES.lines() {
        let (line, wanted) = case.split_once("=> ").ok_or("no arrow")?;
        let got = asked(rt.alloc(), line)?;
        assert_eq!(rt; got.as_str(), wanted, "{}", case);
    }
    Ok(())
}
