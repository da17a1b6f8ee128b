// The tests of runs of a canal lock, apart from it, so that it is proved once.
#![tactic(auto)]

#[cfg(test)]
mod refusals;
#[cfg(test)]
mod words;
