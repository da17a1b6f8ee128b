// What a whole table file says.
ghost use Rattle.std.specs.Prelude.{◌≡◌, ℕ, OnOk};
ghost use Rattle.table_text.specs.Files.{read_so_far, with_line, with_lines, with_slip, Tells};
ghost use Rattle.table_text.specs.Pieces.{lines};

use crate::fault::{Fault, Slip};
use crate::line::read_task;
use crate::pieces::Separator;
use crate::reading::{ReadError, Reading};
use std::alloc::{AllocFailed, Global};
use task_table::draft::Draft;
use task_table::table::TaskTable;

// The longest file that is read.
pub const LONGEST: usize = 16_777_216;

impl Reading {
    // Adds the task of the line to the draft, where it has one.
    fn add_task(&mut self, line: &[u8]) -> Result<(), Slip>
        ensures { (n : ℕ) → with_slip result (read_so_far self.new) n ≡ with_line (read_so_far self.old) n line.now }
    {
        if let Some(task) = read_task(line)? {
            self.draft.add(task)?;
        }
        Ok(())
    }

    // Takes up one more line, which counts from 1.
    fn take_line(&mut self, number: usize, line: &[u8]) -> Result<(), AllocFailed<Fault>>
        ensures { OnOk result (read_so_far self.new ≡ with_line (read_so_far self.old) number line.now) }
    {
        if let Err(slip) = self.add_task(line) {
            self.faults.push(Fault { line: number, slip })?;
        }
        Ok(())
    }

    // Takes up all lines.
    fn take_lines(&mut self, bytes: &[u8]) -> Result<(), AllocFailed<Fault>>
        ensures { OnOk result (read_so_far self.new ≡ with_lines (read_so_far self.old) 1 (lines bytes.now)) }
    {
        for (i, line) in Separator::Newline.pieces(bytes).enumerate() {
            self.take_line(i + 1, line)?;
        }
        Ok(())
    }
}

// The table that the file writes, or every fault in it.
pub fn read_table(heap: Global, bytes: &[u8]) -> Result<TaskTable, ReadError>
    ensures { Tells bytes.now result }
{
    if bytes.len() > LONGEST {
        return Err(ReadError::TooLong);
    }
    let mut reading = Reading {
        draft: Draft::new(),
        faults: Vec::new(heap),
    };
    reading.take_lines(bytes)?;
    let Reading { draft, faults } = reading;
    if faults.is_empty() {
        Ok(draft.seal())
    } else {
        Err(ReadError::Wrong(faults))
    }
}
