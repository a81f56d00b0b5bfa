//! Traces line by line: the events that a judge hears, and what it finds, as lines.
#![tactic(auto)]

pub mod error;
pub mod hosts;
pub mod line;
pub mod moments;
pub mod opening;
pub mod printing;
pub mod reader;
pub mod reporting;
pub mod session;
pub mod settings;
pub mod table;
pub mod verdict;

pub use error::TraceError;
pub use line::{TraceLine, read_line};
pub use moments::read_moment;
pub use opening::{Opening, read_opening};
pub use reader::{Placed, TraceReader};
pub use reporting::report;
pub use session::Session;
pub use settings::{SettingFault, Settings};
pub use table::Counts;
pub use verdict::Strictness;
