// The lock as a transition system: event 1 is a boat that comes, event 2 a tick.
ghost use Rattle.std.specs.Prelude.{◌≡◌, ℕ, ◌<◌, true, false, List, nat_lt};
ghost use Rattle.transition.specs.Runs.{walk};
ghost use Rattle.canal_lock.specs.Locks.{arrival, calm, late, meaning, tick};
ghost use Rattle.canal_lock.specs.Laws;

use crate::lock::{Chamber, Lock};
use crate::refusal::LockRefusal;
use transition::{Refusal, System};

// The event that a boat comes.
pub const COMES: u8 = 1;

// The event that one tick of time goes by.
pub const TICK: u8 = 2;

impl System for Lock {
    type State = Chamber;

    type Reason = LockRefusal;

    const EVENTS: u8 = 2;

    ghost meaning = { meaning };

    ghost lawful = { λ l. Laws.lawful l };

    fn event_count(&self) -> u8 {
        Self::EVENTS
    }

    fn first(&self) -> Chamber {
        Chamber::CALM
    }

    fn fits(&self, state: &Chamber) -> bool {
        state.turn <= self.fill()
            && state.pause <= self.gap()
            && state.wait <= self.patience()
            && (state.boat || state.wait == 0)
    }

    // The tests of every system come first, here and in `forced_event`: a function for the two would be as long as they are.
    fn next(&self, state: &Chamber, event: u8) -> Result<Chamber, Refusal<LockRefusal>> {
        if !self.fits(state) {
            return Err(Refusal::NotFitting);
        }
        if self.is_late(state) {
            return Err(Refusal::Late);
        }
        match event {
            COMES => self.boat_comes(state),
            TICK => Ok(self.tick(state)),
            _ => Err(Refusal::Lacking),
        }
    }

    fn is_doomed(&self, state: &Chamber) -> bool {
        let patience = u16::from(self.patience());
        let wait = u16::from(state.wait);
        let turn = u16::from(state.turn);
        self.fits(state) && state.boat && patience <= wait + turn
    }

    fn is_late(&self, state: &Chamber) -> bool {
        self.fits(state) && state.boat && self.patience() <= state.wait
    }

    fn simulates(&self, a: &Chamber, b: &Chamber) -> bool {
        self.fits(a)
            && self.fits(b)
            && a.turn == b.turn
            && a.boat == b.boat
            && a.wait == b.wait
            && a.pause <= b.pause
    }

    fn forced_event(&self, state: &Chamber) -> Result<u8, Refusal<LockRefusal>> {
        if !self.fits(state) {
            return Err(Refusal::NotFitting);
        }
        if self.is_late(state) {
            return Err(Refusal::Late);
        }
        if self.is_doomed(state) {
            Ok(TICK)
        } else {
            Err(Refusal::NotDoomed)
        }
    }
}

impl Lock {
    // Whether the chamber is always ready before a boat has waited too long: then no run is ever late.
    pub fn is_prompt(&self) -> bool
        ensures answer { result ≡ nat_lt self.now.fill self.now.patience }
        ensures never_late { result ≡ true → (es : List ℕ) → late self.now (walk (meaning self.now) calm es) ≡ false }
    {
        self.fill() < self.patience()
    }

    // A boat comes, or why none does.
    fn boat_comes(&self, state: &Chamber) -> Result<Chamber, Refusal<LockRefusal>>
        ensures { result ≡ arrival self.now state.now }
    {
        if state.boat {
            return Err(Refusal::Own(LockRefusal::OneWaits));
        }
        if state.pause > 0 {
            return Err(Refusal::Own(LockRefusal::TooSoon));
        }
        Ok(Chamber {
            turn: state.turn,
            boat: true,
            wait: 0,
            pause: self.gap(),
        })
    }

    // A tick goes by: a boat goes through where the chamber is ready, else all wait on.
    fn tick(&self, state: &Chamber) -> Chamber
        requires { state.now.wait < 255 }
        ensures { result ≡ tick self.now state.now }
    {
        let pause = state.pause.saturating_sub(1);
        if state.boat && state.turn == 0 {
            Chamber {
                turn: self.fill(),
                boat: false,
                wait: 0,
                pause,
            }
        } else {
            Chamber {
                turn: state.turn.saturating_sub(1),
                boat: state.boat,
                wait: if state.boat { state.wait + 1 } else { 0 },
                pause,
            }
        }
    }
}
