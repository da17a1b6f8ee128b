// Cases, one to a line.
use std::test::Fail;

// What stands before the arrow of a case, and what is wanted of it behind.
pub(crate) fn parts(case: &str) -> Result<(&str, &str), Fail> {
    Ok(case.split_once("=> ").ok_or("no arrow")?)
}
