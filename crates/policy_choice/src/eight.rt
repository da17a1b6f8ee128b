// Lists of a number for each task, in arrays of eight.
ghost use Rattle.std.specs.Prelude.{◌≡◌, ◌≤◌, length, Ok, Err};
ghost use Rattle.policy_choice.specs.Chooses.{padded, one_each};

use crate::wrong_count::WrongCount;
use command_options::options::Key;

// How many tasks a table has at most.
const MOST: usize = 8;

// The numbers, with 0 at each place behind them.
fn padded(numbers: &[u8]) -> [u8; 8]
    requires { length numbers.now ≤ 8 }
    ensures { result ≡ padded numbers.now }
{
    let mut eight = [0; 8];
    eight[..numbers.len()].copy_from_slice(numbers);
    eight
}

// The numbers that the option gives, where there is one for each task.
pub(crate) fn one_each(option: Key, numbers: &[u8], tasks: usize) -> Result<[u8; 8], WrongCount>
    ensures { result ≡ one_each option numbers.now tasks }
{
    let given = numbers.len();
    if given == tasks && given <= MOST {
        Ok(padded(numbers))
    } else {
        Err(WrongCount {
            option,
            given,
            tasks,
        })
    }
}
