// What a transition system shows, and what it means.
ghost use Rattle.std.specs.Prelude.{◌≡◌};
ghost use Rattle.transition.specs.Meanings.{Meaning};
ghost use Rattle.transition.specs.Laws.{Laws};

use crate::refusal::Refusal;
use numbered_refusals::Numbered;

// A system of states and numbered events.
//
// Every method takes any state at all: one that does not fit the system is refused, so no caller owes
// a proof. Each method answers by a field of `meaning`, and a system proves `lawful` once, where it is
// declared: whatever is built on a system rests on these laws alone.
pub trait System {
    // `Copy`, so that a state can be held beside the one that follows it.
    type State: Copy;

    // The reasons of the system's own to refuse an event.
    type Reason: Numbered + Copy;

    // How many events there are, at most 10: they number from 1 to this.
    const EVENTS: u8;

    ghost meaning: { Self → Meaning Self.State Self.Reason };

    // `EVENTS`, in a form that contracts can speak of.
    fn event_count(&self) -> u8
        ensures { result ≡ (meaning self.now).count };

    // The state in which every run begins: it fits, and it is not doomed.
    fn first(&self) -> Self::State
        ensures { result ≡ (meaning self.now).first };

    // Whether the state is one of this system's; an accepted event keeps it so.
    fn fits(&self, state: &Self::State) -> bool
        ensures { result ≡ (meaning self.now).fits state.now };

    // The state that the event leads to, or why it is refused: the state does not fit, is late, there is
    // no such event, or a reason of the system's own, tested in this order.
    fn next(&self, state: &Self::State, event: u8) -> Result<Self::State, Refusal<Self::Reason>>
        ensures { result ≡ (meaning self.now).gives event state.now };

    // Whether the forced events, one after another, lead from the state to a late one.
    fn is_doomed(&self, state: &Self::State) -> bool
        ensures { result ≡ (meaning self.now).doomed state.now };

    // Whether what must never happen has happened: no event is accepted any more.
    fn is_late(&self, state: &Self::State) -> bool
        ensures { result ≡ (meaning self.now).late state.now };

    // Whether `a` accepts every event that `b` accepts, now and from then on, and is doomed wherever `b`
    // is: who explores from `a` need not explore from `b`.
    fn simulates(&self, a: &Self::State, b: &Self::State) -> bool
        ensures { result ≡ (meaning self.now).simulates a.now b.now };

    // The event that brings a doomed state nearer to a late one, or why there is none to tell.
    fn forced_event(&self, state: &Self::State) -> Result<u8, Refusal<Self::Reason>>
        ensures { result ≡ (meaning self.now).forced state.now };

    ghost lawful: { (s : Self) → Laws (meaning s) };
}
