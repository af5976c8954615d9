ghost use Rattle.std.specs.Prelude.{◌≡◌, ◌↔◌, ◌<◌, ◌∷◌, IsTrue, length};
ghost use Rattle.st_base.specs.Bytes.{same};
ghost use Rattle.cmd_text.specs.Lines.{lines};

use build_text::split_once;

// Whether the bytes are this word.
pub(crate) fn is(bytes: &[u8], word: &[u8]) -> bool
    ensures value { result ≡ same bytes.now word.now }
    ensures same { IsTrue result ↔ (bytes.now ≡ word.now) }
{
    bytes == word
}

// The first line, without its line feed, and what follows that.
pub(crate) fn cut_line(text: &[u8]) -> (&[u8], &[u8])
    requires { 0 < length text.now }
    ensures lines { lines text.now ≡ result.0.now ∷ lines result.1.now }
    ensures shorter { length result.1.now < length text.now }
{
    match split_once(text, b'\n') {
        None => (text, &text[text.len()..]),
        Some(cut) => cut,
    }
}
