// 'pethongu table': the table in a file and its load in both modes.
use crate::faulty_file::FaultyFile;
use crate::source::{name_of, read_source};
use crate::trouble::Trouble;
use std::io;
use table_print::loads::Loads;
use table_print::rows::Rows;
use table_source::Source;
use table_text::reading::ReadError;
use table_text::table::read_table;
use task_table::table::TaskTable;

// The table of a source, or what is wrong with it.
pub(crate) fn sealed_table<'a>(
    rt: &HostRuntime,
    source: Source<'a>,
) -> Result<TaskTable, Trouble<'a>> {
    let bytes = read_source(rt, source)?;
    let name = name_of(source);
    // No From: what is told needs the name and the bytes too.
    read_table(rt.alloc(), &bytes).map_err(|e| match e {
        ReadError::Wrong(faults) => Trouble::Faulty(FaultyFile {
            name,
            bytes,
            faults,
        }),
        ReadError::TooLong => Trouble::TooLong { name },
        ReadError::NoMemory => Trouble::NoMemory,
    })
}

pub(crate) fn print_rows(rt: &HostRuntime, table: &TaskTable) -> io::Result<()> {
    print!(rt; "{}", Rows(table.tasks()))
}

pub(crate) fn print_table<'a>(rt: &HostRuntime, source: Source<'a>) -> Result<(), Trouble<'a>> {
    let table = sealed_table(rt, source)?;
    print_rows(rt, &table)?;
    let count = table.len();
    println!(rt; "sealed: {count} of at most 8 tasks, each of them right")?;
    Ok(print!(rt; "{}", Loads(&table))?)
}
