//! The words of a command line, read once.
ghost use Rattle.std.specs.Prelude.{◌≡◌, map, String, string_bytes};
ghost use Rattle.ingest_app.specs.Form.{HasFileName, form_of, form_of_word, form_of_words, form_read};

use st_base::is_name;

/// What is made of the source.
#[derive(Clone, Copy, PartialEq, Eq, Drop)]
pub enum Conversion {
    /// A table of a build text.
    Build,
    /// The build text of a table.
    Show,
}

/// What the words ask for.
#[derive(Clone, Copy)]
pub enum CommandLine<'a> {
    /// `run NAME`: the commands of the client of this name are answered.
    Run(&'a str),
    /// `build` or `show`: the source is converted.
    Convert(Conversion),
    /// Any other words.
    Unknown,
}

// A form of one word.
fn read_word(word: &str) -> CommandLine<'_>
    ensures form { form_read result ≡ form_of_word word.now }
    ensures named { HasFileName result }
{
    if word.as_bytes() == b"build".as_slice() {
        return CommandLine::Convert(Conversion::Build);
    }
    if word.as_bytes() == b"show".as_slice() {
        return CommandLine::Convert(Conversion::Show);
    }
    CommandLine::Unknown
}

// A form of two words.
fn read_words<'a>(word: &str, name: &'a str) -> CommandLine<'a>
    ensures form { form_read result ≡ form_of_words word.now name.now }
    ensures named { HasFileName result }
{
    let names = is_name(name.as_bytes());
    if word.as_bytes() == b"run".as_slice() && names {
        CommandLine::Run(name)
    } else {
        CommandLine::Unknown
    }
}

/// What these words ask for.
pub fn read_command_line(words: &[String]) -> CommandLine<'_>
    ensures form { form_read result ≡ form_of (map string_bytes words.now) }
    ensures named { HasFileName result }
{
    match words {
        [word] => read_word(word.as_str()),
        [word, name] => read_words(word.as_str(), name.as_str()),
        _ => CommandLine::Unknown,
    }
}
