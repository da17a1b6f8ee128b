// What was read of the words so far.
mod values;

use crate::bounds::CheckBounds;
use command_options::options::Key;
use command_options::settings::Settings;
use table_source::Source;

// What was read so far.
#[derive(Drop)]
pub struct Reading<'a> {
    pub source: Option<Source<'a>>,
    pub settings: Settings,
    pub bounds: CheckBounds,
    pub events: Option<Vec<u8>>,
    // the option whose value is the next word
    pub waiting: Option<Key>,
}
