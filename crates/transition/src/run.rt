// A run of a system: the state that the events made so far have led to.
ghost use Rattle.std.specs.Prelude.{◌≡◌, true, is_ok, IfOk, ◌==◌};
ghost use Rattle.transition.specs.Runs.{after, answered, told, walk};

use crate::refusal::Refusal;
use crate::system::System;

// No ghost field says that the state fits: definitions build runs as records of a system and a state.
#[derive(Drop)]
pub struct Run<S: System> {
    system: S,
    state: S::State,
}

impl<S: System> Run<S> {
    // A run that begins in the system's first state.
    pub fn new(system: S) -> Self
        ensures system { result.system ≡ system }
        ensures begins { result.state ≡ (S.System.meaning system).first }
        ensures fits { (S.System.meaning result.system).fits result.state ≡ true }
    {
        let state = system.first();
        Run { system, state }
    }

    // Makes the event, or leaves the run and answers why the event is refused.
    pub fn call(&mut self, event: u8) -> Result<(), Refusal<S::Reason>>
        ensures system { self.new.system ≡ self.old.system }
        ensures state { self.new.state ≡ after ((S.System.meaning self.old.system).gives event self.old.state) self.old.state }
        ensures answer { result ≡ answered ((S.System.meaning self.old.system).gives event self.old.state) }
        ensures answer_number { told S.Reason.number result ≡ told S.Reason.number ((S.System.meaning self.old.system).gives event self.old.state) }
        ensures accepted { (told S.Reason.number result == 0) ≡ is_ok ((S.System.meaning self.old.system).gives event self.old.state) }
        ensures stays_fitting { (S.System.meaning self.old.system).fits self.old.state ≡ true → (S.System.meaning self.new.system).fits self.new.state ≡ true }
    {
        self.state = self.system.next(&self.state, event)?;
        Ok(())
    }

    // Makes the events in turn, each refused one leaving the run.
    pub fn call_all(&mut self, events: &[u8])
        ensures system { self.new.system ≡ self.old.system }
        ensures walks { self.new.state ≡ walk (S.System.meaning self.old.system) self.old.state events.now }
        ensures stays_fitting { (S.System.meaning self.old.system).fits self.old.state ≡ true → (S.System.meaning self.new.system).fits self.new.state ≡ true }
    {
        for event in events {
            let _ = self.call(*event);
        }
    }

    // The event that brings a doomed run nearer to a late state; none is made.
    pub fn forced(&self) -> Result<u8, Refusal<S::Reason>>
        ensures answer { result ≡ (S.System.meaning self.now.system).forced self.now.state }
        ensures accepted { IfOk result (λ event. is_ok ((S.System.meaning self.now.system).gives event self.now.state) ≡ true) }
    {
        self.system.forced_event(&self.state)
    }

    pub fn is_doomed(&self) -> bool
        ensures { result ≡ (S.System.meaning self.now.system).doomed self.now.state }
    {
        self.system.is_doomed(&self.state)
    }

    pub fn is_late(&self) -> bool
        ensures { result ≡ (S.System.meaning self.now.system).late self.now.state }
    {
        self.system.is_late(&self.state)
    }

    pub fn state(&self) -> &S::State
        ensures { result.now ≡ self.now.state }
    {
        &self.state
    }

    pub fn system(&self) -> &S
        ensures { result.now ≡ self.now.system }
    {
        &self.system
    }
}
