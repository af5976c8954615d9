ghost use Rattle.std.specs.Prelude.{◌≡◌};
ghost use Rattle.build_text.specs.Build.{line_fault_of_word};
ghost use Rattle.build_text.specs.declared.fault.BuildFault.TheVariants as build;
ghost use Rattle.build_text.specs.declared.fault.WordFault.TheVariants as spelling;

use std::alloc::AllocError;

/// Why a word isn't read as bytes.
#[derive(Drop)]
pub enum WordFault {
    /// It is no spelling.
    NotAWord,
    /// It stands for more bytes than the limit.
    TooLong,
    OutOfMemory,
}

/// Why a text is no build text: its first fault. Lines are counted from 1.
#[derive(Debug, Drop)]
pub enum BuildFault {
    /// The line is neither `put K V` nor `del K`, or no line feed ends it.
    Line { line: u32 },
    /// The line's key or value passes its limit.
    TooLarge { line: u32 },
    /// The line's key isn't greater than that of the line before it.
    NotRising { line: u32 },
    /// The text has no line.
    NoEntry,
    OutOfMemory,
}

// Why a line of a build text stands for no entry.
#[derive(Drop)]
pub(crate) enum BuildLineFault {
    // It is neither `put K V` nor `del K`.
    Line,
    // It is such a line, and its key or value passes its limit.
    TooLarge,
    OutOfMemory,
}

impl From<AllocError> for WordFault {
    ghost from_gives = { λ _ fault. fault ≡ spelling.OutOfMemory };

    fn from(_error: AllocError) -> WordFault {
        WordFault::OutOfMemory
    }
}

impl From<AllocError> for BuildFault {
    ghost from_gives = { λ _ fault. fault ≡ build.OutOfMemory };

    fn from(_error: AllocError) -> BuildFault {
        BuildFault::OutOfMemory
    }
}

impl From<WordFault> for BuildLineFault {
    ghost from_gives = { λ fault result. result ≡ line_fault_of_word fault };

    fn from(fault: WordFault) -> BuildLineFault {
        match fault {
            WordFault::NotAWord => BuildLineFault::Line,
            WordFault::TooLong => BuildLineFault::TooLarge,
            WordFault::OutOfMemory => BuildLineFault::OutOfMemory,
        }
    }
}
