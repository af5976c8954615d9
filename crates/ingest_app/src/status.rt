ghost use Rattle.std.specs.Prelude.{◌≡◌};
ghost use Rattle.ingest_app.specs.Status.{status_number};

/// How a run ends.
#[derive(Clone, Copy, PartialEq, Eq, Drop)]
pub enum Status {
    /// The transcript is written, or the table, or the build text.
    Done,
    /// The source is no build text of a table, or no external table: `refused` and the cause are written.
    Refused,
    /// Memory runs out, and nothing is written.
    Memory,
    /// The input files have failed: `input NAME` is written. Or the source has: `input` is written.
    InputFault,
    /// The disk has failed: at the opening `disk` is written, else the transcript.
    DiskFault,
    /// The sink has failed: a part of the text is written, from its beginning on.
    SinkFault,
    /// A client file isn't there, is too long, or has a faulty line: `script NAME LINE` is written.
    Script,
    /// The disk's store is damaged: `damaged FILE OFFSET` is written.
    Damaged,
    /// The words are no form that is built so far: `notyet` is written.
    NotYet,
}

impl Status {
    /// The number with which the program ends.
    pub fn number(self) -> u8
        ensures { result ≡ status_number self }
    {
        match self {
            Status::Done => 0,
            Status::Refused => 1,
            Status::Memory => 3,
            Status::InputFault => 4,
            Status::DiskFault => 5,
            Status::SinkFault => 6,
            Status::Script => 7,
            Status::Damaged => 8,
            Status::NotYet => 9,
        }
    }
}
