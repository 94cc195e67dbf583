//! Faults of devices and of a run.

ghost use Rattle.std.specs.Prelude.{◌≡◌};

use thiserror::Error;

/// A call of a reader failed.
#[derive(Clone, Copy, Debug, PartialEq, Eq, Error)]
#[error("the reader failed")]
pub struct ReadFault;

/// A call of a writer failed, or took no byte.
#[derive(Clone, Copy, Debug, PartialEq, Eq, Error)]
#[error("the writer failed")]
pub struct WriteFault;

/// Why a run ended early.
#[derive(Clone, Copy, Debug, PartialEq, Eq, Error)]
pub enum RunFault {
    /// A call of the reader failed, within a command or between two.
    #[error("the commands could not be read")]
    Read,
    /// A call of the writer failed, within an answer.
    #[error("an answer could not be written")]
    Write,
    /// 2^64 - 1 commands were answered, and the stream did not end.
    #[error("there are too many commands")]
    Long,
}

impl From<ReadFault> for RunFault {
    ghost use Rattle.ldi_stream.specs.declared.fault.RunFault.TheVariants.{Read};

    ghost from_gives = { λ _ e. e ≡ Read };

    fn from(_fault: ReadFault) -> RunFault {
        RunFault::Read
    }
}

impl From<WriteFault> for RunFault {
    ghost use Rattle.ldi_stream.specs.declared.fault.RunFault.TheVariants.{Write};

    ghost from_gives = { λ _ e. e ≡ Write };

    fn from(_fault: WriteFault) -> RunFault {
        RunFault::Write
    }
}
