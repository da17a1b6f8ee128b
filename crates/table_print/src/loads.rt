// The load of a table in both modes.
use std::fmt;
use task_load::fraction::Fraction;
use task_load::load::load;
use task_table::mode::Mode;
use task_table::table::TaskTable;

// What the load means for one processor.
fn remark(load: &Fraction) -> &'static str {
    if load.is_above_one() {
        ", more than one processor can do"
    } else {
        " of one processor"
    }
}

#[derive(Drop)]
pub struct Loads<'a>(pub &'a TaskTable);

impl fmt::Display for Loads<'_> {
    fn fmt<W: fmt::Write>(&self, f: &mut fmt::Formatter<W>) -> fmt::Result {
        let low = load(self.0, Mode::Low);
        let high = load(self.0, Mode::High);
        writeln!(f, "load in low mode:  {low}{}", remark(&low))?;
        writeln!(f, "load in high mode: {high}{}", remark(&high))
    }
}
