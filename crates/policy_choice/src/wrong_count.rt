// Why a command line gives no policy.
use command_options::options::Key;

// The option's list has another number of numbers than there are tasks.
#[derive(Clone, Copy, Debug, PartialEq, Eq)]
pub struct WrongCount {
    pub option: Key,
    pub given: usize,
    pub tasks: usize,
}
