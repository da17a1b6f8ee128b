// A table in aligned columns.
use std::fmt;
use task_table::task::Task;

// The tasks of a table, one to a line, numbered from 1.
#[derive(Drop)]
pub struct Rows<'a>(pub &'a [Task]);

impl fmt::Display for Rows<'_> {
    fn fmt<W: fmt::Write>(&self, f: &mut fmt::Formatter<W>) -> fmt::Result {
        write!(f, "task  criticality  period  deadline")?;
        writeln!(f, "  low budget  high budget  offset")?;
        for (i, task) in self.0.iter().enumerate() {
            let Task {
                criticality,
                period,
                deadline,
                budget_low,
                budget_high,
                offset,
            } = *task;
            let number = i + 1;
            write!(
                f,
                "{number:>4}  {criticality:<11}  {period:>6}  {deadline:>8}"
            )?;
            writeln!(f, "  {budget_low:>10}  {budget_high:>11}  {offset:>6}")?;
        }
        Ok(())
    }
}
