// A lock by its figures, and its chamber at one moment. All times are in ticks.
ghost use Rattle.std.specs.Prelude.{◌≡◌, ◌≤◌};

#[derive(Clone, Copy)]
pub struct Lock {
    // how long the chamber takes to be ready again after a boat
    fill: u8,
    // how long after one boat the next may come
    gap: u8,
    // how long a boat may wait
    patience: u8,
    ghost bounded: { patience ≤ 255 },
}

// A flag and a wait, and no Option: anyone may build any chamber, also one with a wait and no boat, which fits no lock.
#[derive(Clone, Copy, Debug, PartialEq, Eq)]
pub struct Chamber {
    // how long until the chamber is ready
    pub turn: u8,
    // whether a boat waits
    pub boat: bool,
    // how long it has waited
    pub wait: u8,
    // how long until another boat may come
    pub pause: u8,
}

impl Chamber {
    // Ready, and without boats.
    pub const CALM: Chamber = Chamber {
        turn: 0,
        boat: false,
        wait: 0,
        pause: 0,
    };
}

impl Lock {
    pub fn new(fill: u8, gap: u8, patience: u8) -> Self
        ensures fill { result.fill ≡ fill }
        ensures gap { result.gap ≡ gap }
        ensures patience { result.patience ≡ patience }
    {
        Lock {
            fill,
            gap,
            patience,
        }
    }

    pub fn fill(&self) -> u8
        ensures { result ≡ self.now.fill }
    {
        self.fill
    }

    pub fn gap(&self) -> u8
        ensures { result ≡ self.now.gap }
    {
        self.gap
    }

    pub fn patience(&self) -> u8
        ensures { result ≡ self.now.patience }
    {
        self.patience
    }
}
