// Commands.
use command_options::settings::Settings;
use command_reading::bounds::CheckBounds;
use table_source::Source;

#[derive(Debug, Drop)]
pub enum Command<'a> {
    Help,
    Table(Source<'a>),
    Run {
        source: Source<'a>,
        settings: Settings,
        events: Vec<u8>,
    },
    Check {
        source: Source<'a>,
        settings: Settings,
        bounds: CheckBounds,
    },
}
