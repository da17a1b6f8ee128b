// The tests of checking a canal lock, apart from the explorer, so that it is proved once.
#![tactic(auto)]

#[cfg(test)]
mod checks;
#[cfg(test)]
mod failing;
#[cfg(test)]
mod memory;
#[cfg(test)]
mod words;
