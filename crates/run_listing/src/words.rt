// Reasons for refusals.

// Why an event was refused, by the refusal's number: a listing is told of any reasons that have numbers.
pub(crate) fn reason(number: u8) -> &'static str {
    match number {
        3 => "a job is late, and nothing happens any more",
        4 => "there is no such event or no such task",
        5 => "the task is dropped",
        6 => "the task is ready already",
        7 => "the task has to wait",
        8 => "no job runs that could finish",
        9 => "a task is due, and is released before time goes on",
        _ => "the state does not fit the table",
    }
}
