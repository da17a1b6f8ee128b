// A table file with faults, and what is told of it.
use std::fmt;
use table_print::faults::Told;
use table_text::fault::Fault;

// How many faults of a file are told.
const TOLD: usize = 20;

#[derive(Debug, Drop)]
pub(crate) struct FaultyFile<'a> {
    pub(crate) name: &'a str,
    pub(crate) bytes: Vec<u8>,
    pub(crate) faults: Vec<Fault>,
}

// A line for each fault; before the first one stands the program's name already.
impl fmt::Display for FaultyFile<'_> {
    fn fmt<W: fmt::Write>(&self, f: &mut fmt::Formatter<W>) -> fmt::Result {
        let name = self.name;
        for (i, fault) in self.faults.iter().take(TOLD).enumerate() {
            let told = Told {
                bytes: &self.bytes,
                fault: *fault,
            };
            let start = if i == 0 { "" } else { "\npethongu: " };
            write!(f, "{start}{name}: {told}")?;
        }
        if self.faults.len() > TOLD {
            let more = self.faults.len() - TOLD;
            write!(f, "\npethongu: {name}: and {more} faults more")?;
        }
        Ok(())
    }
}
