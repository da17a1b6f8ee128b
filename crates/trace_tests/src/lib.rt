// The tests of tracing visits, apart from the explorer, so that it is proved once.
#![tactic(auto)]

#[cfg(test)]
mod traces;
