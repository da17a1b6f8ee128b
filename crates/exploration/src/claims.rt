// The theorems on exploring and tracing, each as the contract of a function, so that its proof is owed.
ghost use Rattle.exploration.specs.Theorems.{ExploringTells, ExploringDecides, ExploringUnrolls, ClosedNeverLate, DecisionsExclude, TracingFollowsChains};

use transition::system::System;

// However much memory is lent, the end of exploring tells what it should of the system.
pub fn exploring_tells<S: System>(system: &S)
    ensures { ExploringTells (S.System.meaning system.now) }
{}

// Where the memory suffices, exploring decides whether the system is ever late.
pub fn exploring_decides<S: System>(system: &S)
    ensures { ExploringDecides (S.System.meaning system.now) }
{}

// Exploring is its turns one after another, each leaves less to do, and the bound on turns is never reached.
pub fn exploring_unrolls<S: System>(system: &S)
    ensures { ExploringUnrolls (S.System.meaning system.now) }
{}

// States that are closed, wherever they come from, show that no run is ever late.
pub fn closed_never_late<S: System>(system: &S)
    ensures { ClosedNeverLate (S.System.meaning system.now) }
{}

// No system is both never late and ever late, so that the two decisions exclude each other.
pub fn decisions_exclude<S: System>(system: &S)
    ensures { DecisionsExclude (S.System.meaning system.now) }
{}

// Whatever the visits are, tracing answers exactly the events of sound chains.
pub fn tracing_follows_chains()
    ensures { TracingFollowsChains }
{}
