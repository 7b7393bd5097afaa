//! Why a command line is not performed.
use clap::Error;

/// Why a command line is not performed. Programs get the same line for each reason.
#[derive(Debug, Drop, thiserror::Error)]
pub enum CommandFault {
    /// The program does not accept these words. What `clap` says of them is for a person.
    #[error("command line")]
    Refused(Error),
    /// A word is no text, the text that was asked for could not be printed, or memory ran out.
    #[error("command line")]
    Failed,
}
