//! The top calls: `run` reads a client file, answers its commands in order, and writes its transcript; `convert` makes a
//! table of a build text, and a build text of a table.
//!
//! What is proved of the program stands on `run`, which the program calls over the files of the working folder, standard
//! input and standard output.
#![tactic(auto)]

mod answer;
mod build;
mod client;
mod client_run;
mod command_line;
mod conversions;
mod in_memory;
mod laws;
mod outcome;
mod show;
mod status;
mod texts;
mod top_call;
mod unknown;

pub use command_line::Conversion;
pub use conversions::convert;
pub use in_memory::run_in_memory;
pub use laws::show_gives_back_what_was_built;
pub use status::Status;
pub use top_call::run;
