//! Words of bytes and build text: the entries of a table as lines, `put K V` or `del K`.
//!
//! A layer above may rely on this: a word of bytes and a build text are read exactly by the definitions in `specs/`, and the
//! text's first faulty line is named; the word of bytes is read as these bytes and the build text of entries as these
//! entries, and no other word or text is. A word that needs no spelling is borrowed from the text.
#![tactic(auto)]

mod fault;
mod laws;
mod line;
mod spelling;
mod text;
mod words;

pub use fault::{BuildFault, WordFault};
pub use laws::{build_text_is_read, word_is_read};
pub use line::{LineEntry, push_build_line};
pub use spelling::{push_word, read_word};
pub use text::{EntryWriter, print_build, read_build, write_build};
pub use words::{Words, split_once};
