// Why the program ends with status 1, and what it says of it.
use facts::refusals::Refusal;
use sheets::misread::Misread;
use std::alloc::{AllocError, AllocFailed};
use std::io;
use texts::help::help_text;
use texts::refusals::{mend_line, refusal_line, sheet_refusal_line};

#[derive(Debug, Drop)]
pub(crate) enum Failure {
    NoSuchCommand,
    Unreadable { path: String, error: io::Error },
    Misread(Misread),
    Refused(Refusal),
    // no memory, or a stream that takes no more: nothing can be said of it
    System(io::Error),
}

impl From<Misread> for Failure {
    fn from(misread: Misread) -> Failure {
        Failure::Misread(misread)
    }
}

impl From<Refusal> for Failure {
    fn from(refusal: Refusal) -> Failure {
        Failure::Refused(refusal)
    }
}

impl From<io::Error> for Failure {
    fn from(error: io::Error) -> Failure {
        Failure::System(error)
    }
}

impl From<AllocError> for Failure {
    fn from(error: AllocError) -> Failure {
        Failure::System(error.into())
    }
}

impl<T: Drop> From<AllocFailed<T>> for Failure {
    fn from(failed: AllocFailed<T>) -> Failure {
        AllocError::from(failed).into()
    }
}

impl Failure {
    // Says on the error stream what is wrong, and what to mend.
    pub(crate) fn tell(&self, rt: &HostRuntime) -> io::Result<()> {
        match self {
            Failure::NoSuchCommand => rt.eprintln(help_text()),
            Failure::Unreadable { path, error } => {
                eprintln!(rt; "{path} cannot be read: {error}")
            }
            Failure::Misread(Misread { refusal, word }) => {
                rt.eprintln(sheet_refusal_line(rt.alloc(), *refusal, *word)?)?;
                rt.eprintln(mend_line(rt.alloc(), *refusal)?)
            }
            Failure::Refused(refusal) => {
                rt.eprintln(refusal_line(rt.alloc(), *refusal)?)?;
                rt.eprintln(mend_line(rt.alloc(), *refusal)?)
            }
            Failure::System(_) => Ok(()),
        }
    }
}
