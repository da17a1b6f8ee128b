// Events, answers, chambers, verdicts and outcomes in words.
ghost use Rattle.std.specs.Prelude.{◌≡◌, Some};
ghost use Rattle.lock_story.specs.Words.{event, answer, moment, found, ended};

use canal_lock::{COMES, Chamber, TICK};
use explorer::Outcome;
use lock_check::Verdict;
use numbered_refusals::Numbered;
use std::fmt;
use transition::Refusal;

// An event by its number.
#[derive(Clone, Copy)]
pub struct Event(pub u8);

impl Event {
    // What happens at the event.
    pub fn words(self) -> &'static str
        ensures { result.now ≡ event self.0 }
    {
        match self.0 {
            COMES => "a boat comes",
            TICK => "a tick passes",
            _ => "no event of the lock",
        }
    }
}

impl fmt::Display for Event {
    ghost output = { λ x. Some (event x.0) };

    fn fmt<W: fmt::Write>(&self, f: &mut fmt::Formatter<W>) -> fmt::Result {
        let words = self.words();
        write!(f, "{words}")
    }
}

// What a run answers an event, whatever the reasons to refuse it.
#[derive(Clone, Copy)]
pub struct Answer<R>(pub Result<(), Refusal<R>>);

impl<R: Numbered> fmt::Display for Answer<R> {
    ghost output = { λ x. Some (answer R.number x.0) };

    fn fmt<W: fmt::Write>(&self, f: &mut fmt::Formatter<W>) -> fmt::Result {
        match &self.0 {
            Ok(()) => write!(f, "accepted"),
            Err(refusal) => {
                let number = refusal.number();
                write!(f, "refusal {number}")
            }
        }
    }
}

// The chamber at one moment.
#[derive(Clone, Copy)]
pub struct Moment(pub Chamber);

impl fmt::Display for Moment {
    ghost output = { λ x. Some (moment x.0) };

    fn fmt<W: fmt::Write>(&self, f: &mut fmt::Formatter<W>) -> fmt::Result {
        let turn = self.0.turn;
        let wait = self.0.wait;
        let pause = self.0.pause;
        if self.0.boat {
            write!(
                f,
                "ready in {turn}, a boat has waited {wait}, next boat in {pause}"
            )
        } else {
            write!(f, "ready in {turn}, no boat waits, next boat in {pause}")
        }
    }
}

// A verdict.
#[derive(Clone, Copy)]
pub struct Found(pub Verdict);

impl fmt::Display for Found {
    ghost output = { λ x. Some (found x.0) };

    fn fmt<W: fmt::Write>(&self, f: &mut fmt::Formatter<W>) -> fmt::Result {
        match self.0 {
            Verdict::Safe => write!(f, "safe, no boat is ever overdue"),
            Verdict::Unsafe => write!(f, "unsafe, a boat can be overdue"),
            Verdict::NodesFull => write!(f, "undecided, the nodes are full"),
            Verdict::VisitsFull => write!(f, "undecided, the visits are full"),
            Verdict::TooLarge => write!(f, "undecided, too much memory is lent"),
        }
    }
}

// How exploring ended.
#[derive(Clone, Copy)]
pub struct Ended(pub Outcome);

impl fmt::Display for Ended {
    ghost output = { λ x. Some (ended x.0) };

    fn fmt<W: fmt::Write>(&self, f: &mut fmt::Formatter<W>) -> fmt::Result {
        match self.0 {
            Outcome::Schedulable => write!(f, "schedulable"),
            Outcome::Unschedulable => write!(f, "unschedulable"),
            Outcome::TooLarge => write!(f, "too much memory"),
            Outcome::VisitsFull => write!(f, "no visit is left"),
            Outcome::NodesFull => write!(f, "no node is left"),
        }
    }
}
