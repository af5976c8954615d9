ghost use Rattle.std.specs.Prelude.{◌≡◌, ℕ, ◌<◌, Bool, true, IsTrue, List, length, take, Ok, Some};
ghost use Rattle.std.specs.List.{AllByRecursion as Each};
ghost use Rattle.st_base.specs.Rows.{AreRows};
ghost use Rattle.st_base.specs.declared.entry.Entry.{Entry};
ghost use Rattle.st_base.specs.Word.{word};
ghost use Rattle.build_text.specs.Build.{IsBuildEntry, build_of, build_text};
ghost use Rattle.build_text.specs.Words.{AreBytes, bytes_of_word};

/// The word of bytes is read as these bytes, and it is the only word that is.
pub fn word_is_read()
    ensures read { (bytes : List ℕ) → AreBytes bytes → bytes_of_word (word bytes) ≡ Some bytes }
    ensures only { (spelling bytes : List ℕ) → bytes_of_word spelling ≡ Some bytes → spelling ≡ word bytes }
    ensures bytes { (spelling bytes : List ℕ) → bytes_of_word spelling ≡ Some bytes → AreBytes bytes }
{}

/// The build text of entries is read as these entries, where there are some and they are rows of bytes with the sequence
/// number 0; under a table's limit, where that takes each front of them. It is the only text that is read as them, and
/// what is read is such rows.
pub fn build_text_is_read()
    ensures read { (entries : List Entry) → 0 < length entries → AreRows entries → Each IsBuildEntry entries
        → build_of (λ _. true) (build_text entries) ≡ Ok entries }
    ensures fitting { (fits : List Entry → Bool) (entries : List Entry) → 0 < length entries → AreRows entries
        → Each IsBuildEntry entries
        → ((count : ℕ) → IsTrue (fits (take count entries))) → build_of fits (build_text entries) ≡ Ok entries }
    ensures only { (fits : List Entry → Bool) (text : List ℕ) (entries : List Entry) → build_of fits text ≡ Ok entries
        → text ≡ build_text entries }
    ensures rows { (fits : List Entry → Bool) (text : List ℕ) (entries : List Entry) → build_of fits text ≡ Ok entries
        → AreRows entries }
    ensures entries { (fits : List Entry → Bool) (text : List ℕ) (entries : List Entry)
        → build_of fits text ≡ Ok entries → Each IsBuildEntry entries }
{}
