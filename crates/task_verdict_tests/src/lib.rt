// The tests of the verdict on tasks, apart from it, so that it is proved once.
#![tactic(auto)]

#[cfg(test)]
mod cases;
#[cfg(test)]
mod memory_ends;
#[cfg(test)]
mod policy_ends;
#[cfg(test)]
mod policy_words;
#[cfg(test)]
mod verdicts;
