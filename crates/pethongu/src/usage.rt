// What the program can be asked for.
pub(crate) const USAGE: &str = "\
pethongu shows what a table of tasks asks of one processor.

  pethongu table [FILE]                          print the table in FILE and its load in both modes
  pethongu run [FILE] --events LIST [OPTION]...  make events on a new run of the table, and show what happens
  pethongu check [FILE] [OPTION]...              explore every run of the table, and tell whether one is late
  pethongu help                                  print this text

A table has one task to a line: H or L for its criticality, then its period,
deadline, low budget, high budget and offset in ticks, as in

  H 3 3 2 3 0   # a comment goes to the end of its line

Without FILE, or where it is '-', the table is read from standard input.

How the table is run, by 'run' and 'check':

  --kind KIND      sporadic (also without this option) or periodic
  --policy POLICY  fixed, deadline (also without this option) or laxity
  --ranks LIST     the ranks of the fixed order, one for each task; else the order of the rows
  --high-first     in low mode high tasks run first
  --shorten LIST   shorter deadlines that the policy is shown in low mode, one for each task
  --porcelain      print for scripts

Only for 'run':

  --events LIST    the events to be made

Only for 'check':

  --nodes N              the nodes that exploring is lent, 4096 without this option
  --visits N             the visits that exploring is lent, 65535 without this option
  --require-schedulable  anything but schedulable is a failure
  --quiet                tell no progress

An N is a number from 0 to 1000000. A LIST is numbers from 0 to 255 with commas between them, as 1,2,9,10.
";
