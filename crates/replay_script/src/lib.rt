//! Scripts of a replay: what each line says, and what a whole one says: what an upstream answers, what is asked
//! of the resolver, and how it is configured; and the text of what was asked and answered.
#![tactic(auto)]

pub mod configuration;
pub mod data_fields;
pub mod fail_line;
pub mod fault;
pub mod fields;
pub mod line;
pub mod numbers;
pub mod option_line;
pub mod output;
pub mod record_line;
pub mod reply_line;
pub mod request_line;
pub mod script;
pub mod setting;
pub mod words;

pub use configuration::Configuration;
pub use fail_line::{Failure, FailureKind};
pub use fault::{LineFault, ScriptError, ScriptFault};
pub use fields::{Fields, ScriptLines, is_skipped};
pub use hickory_resolver_lookup::Request;
pub use line::{Line, read_fields, read_line, read_text, split};
pub use option_line::OptionLine;
pub use record_line::Section;
pub use reply_line::ReplyHead;
pub use script::{OpenReply, Script, read_script};
pub use setting::Setting;
