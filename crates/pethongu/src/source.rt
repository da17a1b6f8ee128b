// The bytes of a table file.
use crate::trouble::Trouble;
use std::alloc::Global;
use std::fs::File;
use std::io;
use std::io::Read;
use table_source::Source;
use table_text::table::LONGEST;

// One byte more than the longest table is read, so that a longer one is seen to be so; a constant takes no call.
const ENOUGH: u64 = LONGEST as u64 + 1;

fn read_enough(heap: Global, from: impl Read + Drop) -> io::Result<Vec<u8>> {
    let mut bytes = Vec::new(heap);
    from.take(ENOUGH).read_to_end(&mut bytes)?;
    Ok(bytes)
}

fn read_file(rt: &HostRuntime, name: &str) -> io::Result<Vec<u8>> {
    read_enough(rt.alloc(), File::open(rt, name)?)
}

// The name by which a source is told.
pub(crate) fn name_of<'a>(source: Source<'a>) -> &'a str {
    match source {
        Source::Input => "standard input",
        Source::File(name) => name,
    }
}

// All bytes of the source.
pub(crate) fn read_source<'a>(
    rt: &HostRuntime,
    source: Source<'a>,
) -> Result<Vec<u8>, Trouble<'a>> {
    let read = match source {
        Source::Input => read_enough(rt.alloc(), rt.stdin()),
        Source::File(name) => read_file(rt, name),
    };
    read.map_err(|error| Trouble::NotRead {
        name: name_of(source),
        error,
    })
}
