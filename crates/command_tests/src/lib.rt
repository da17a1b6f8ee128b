// Tests of command lines, apart from what they test, so that this is proved once.
#![tactic(auto)]

#[cfg(test)]
mod chosen;
#[cfg(test)]
mod lines;
