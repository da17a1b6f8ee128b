// Who ran and who waited, tick by tick.
#![tactic(auto)]

mod timeline;

pub use timeline::Timeline;
