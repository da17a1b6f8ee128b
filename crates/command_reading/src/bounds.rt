// How a check goes.
ghost use Rattle.std.specs.Prelude.{◌≡◌};
ghost use Rattle.command_reading.specs.Readings.{bounds_in, unbounded};

#[derive(Clone, Copy, Debug, PartialEq, Eq)]
pub struct CheckBounds {
    pub nodes: usize,
    pub visits: usize,
    pub require_schedulable: bool,
    pub quiet: bool,
}

impl CheckBounds {
    // Without any option.
    pub fn new() -> CheckBounds
        ensures { bounds_in result ≡ unbounded }
    {
        CheckBounds {
            // The most that exploring takes, written out: reading words does not stand on exploring.
            nodes: 4096,
            visits: 65535,
            require_schedulable: false,
            quiet: false,
        }
    }
}
