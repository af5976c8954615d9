//! The text of client files and of transcripts: the commands that a client file has, and the line of each reply. Keys and
//! values are written as words of bytes.
//!
//! A layer above may rely on this: a client file is read exactly by the definitions in `specs/`, and its first faulty line
//! is named. The line of a place and a reply is the model's, for every reply and refusal; what is read back of a line is a
//! reply that a transcript can have, and with its place the only one that prints as the line.
#![tactic(auto)]

mod command;
mod fault;
mod lines;
mod parts;
mod print;
mod print_fault;
mod print_refusal;
mod refusals;
mod replies;
mod script;
mod spelled;
mod table_faults;

pub use fault::{LineFault, ScriptFault};
pub use print::{print_reply, push_reply};
pub use replies::read_reply;
pub use script::{Numbered, Script, read_script};
