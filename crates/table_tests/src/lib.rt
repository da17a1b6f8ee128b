// Tests of tables, table files and command lines, apart from what they test, so that this is proved once.
#![tactic(auto)]

#[cfg(test)]
mod cases;
#[cfg(test)]
mod command_lines;
#[cfg(test)]
mod files;
#[cfg(test)]
mod tasks;
