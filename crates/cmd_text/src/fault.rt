ghost use Rattle.std.specs.Prelude.{◌≡◌};
ghost use Rattle.cmd_text.specs.Commands.{limit_fault_of, fault_of_word};
ghost use Rattle.cmd_text.specs.declared.fault.LineFault.TheVariants as line;
ghost use Rattle.cmd_text.specs.declared.fault.ParseFault.TheVariants as parse;
ghost use Rattle.cmd_text.specs.declared.fault.ScriptFault.TheVariants as script;

use build_text::WordFault;
use st_base::MakeFault;
use std::alloc::AllocError;

/// Why a text is no client file.
#[derive(Debug, Drop)]
pub enum ScriptFault {
    /// The number of the first line that isn't a command; lines are counted from 1.
    Line(u32),
    OutOfMemory,
}

/// Why a line isn't read as a reply.
#[derive(Debug, Drop)]
pub enum LineFault {
    /// No place and reply print as the line.
    NotAReply,
    OutOfMemory,
}

// Why words aren't read as a command or a reply, or as a part of one.
#[derive(Drop)]
pub(crate) enum ParseFault {
    // They are something else, or pass a limit.
    Mismatch,
    OutOfMemory,
}

impl From<AllocError> for ScriptFault {
    ghost from_gives = { λ _ fault. fault ≡ script.OutOfMemory };

    fn from(_error: AllocError) -> ScriptFault {
        ScriptFault::OutOfMemory
    }
}

impl From<AllocError> for LineFault {
    ghost from_gives = { λ _ fault. fault ≡ line.OutOfMemory };

    fn from(_error: AllocError) -> LineFault {
        LineFault::OutOfMemory
    }
}

impl From<AllocError> for ParseFault {
    ghost from_gives = { λ _ fault. fault ≡ parse.OutOfMemory };

    fn from(_error: AllocError) -> ParseFault {
        ParseFault::OutOfMemory
    }
}

impl From<MakeFault> for ParseFault {
    ghost from_gives = { λ fault result. result ≡ limit_fault_of fault };

    fn from(fault: MakeFault) -> ParseFault {
        match fault {
            MakeFault::Limit => ParseFault::Mismatch,
            MakeFault::OutOfMemory => ParseFault::OutOfMemory,
        }
    }
}

impl From<WordFault> for ParseFault {
    ghost from_gives = { λ fault result. result ≡ fault_of_word fault };

    fn from(fault: WordFault) -> ParseFault {
        match fault {
            WordFault::NotAWord => ParseFault::Mismatch,
            WordFault::TooLong => ParseFault::Mismatch,
            WordFault::OutOfMemory => ParseFault::OutOfMemory,
        }
    }
}
