// The tests of the verdict on locks of a canal, apart from it, so that it is proved once.
#![tactic(auto)]

#[cfg(test)]
mod locks;
