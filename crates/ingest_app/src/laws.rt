ghost use Rattle.std.specs.Prelude.{◌≡◌, List, ℕ};
ghost use Rattle.ingest_app.specs.Convert.{EndsBytes};
ghost use Rattle.ingest_app.specs.declared.command_line.Conversion.TheVariants.{Build, Show};
ghost use Rattle.ingest_app.specs.declared.status.Status.{Status};
ghost use Rattle.ingest_app.specs.declared.status.Status.TheVariants.{Done};

use build_text::build_text_is_read;
use st_table::table_or_first_fault;
use table_writer::written_table_opens;

/// Of the table that `build` writes of a text, `show` writes this text, and ends in no other way.
pub fn show_gives_back_what_was_built()
    ensures shown { (text table : List ℕ) → EndsBytes Build text Done table → EndsBytes Show table Done text }
    ensures only { (text table out : List ℕ) (status : Status) → EndsBytes Build text Done table
        → EndsBytes Show table status out → (status ≡ Done) × (out ≡ text) }
{
    build_text_is_read();
    table_or_first_fault();
    written_table_opens();
}
