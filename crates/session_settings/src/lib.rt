//! What a session with a network is opened with: what a file resolv.conf says, and over it further settings, a line
//! each: the settings of a script, options that no script has, and servers with their ports and protocols. There is no
//! input: a program hands in the octets.
#![tactic(auto)]

mod reading;
mod server_line;
mod session_line;
mod session_option;
mod settings;
mod settings_error;

pub use server_line::{file_servers, read_server_line};
pub use session_line::{SessionLine, SessionSetting, read_session_fields};
pub use session_option::SessionOption;
pub use settings::{SessionSettings, read_servers, read_session_settings};
pub use settings_error::{SettingsError, line_error};
