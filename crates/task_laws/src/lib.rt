// Tables of tasks as systems: what they mean, and that they keep the laws of systems.
#![tactic(auto)]

ghost use Rattle.task_laws.specs.Claims.{SystemsLawful, PeriodicItself};

// The theorem, of both kinds and every policy.
pub fn systems_are_lawful() -> bool
    ensures lawful { SystemsLawful }
    ensures periodic { PeriodicItself }
{
    true
}
