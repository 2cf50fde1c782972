// How a program ends that reads standard input and writes standard output: what failed is told on standard error, and is the status.
#![tactic(auto)]

ghost use Rattle.std.specs.Prelude.{◌≡◌};
ghost use Rattle.std.specs.Process.{exit_status};
ghost use Rattle.ending.specs.Ending.{error_of, status};

use std::error::Error;
use std::process::{ExitCode, Termination};
use std::{fmt, io};

// What failed, and why.
#[derive(Debug, Drop)]
pub enum Failure {
    Input(io::Error),
    Packets(io::Error),
    Output(io::Error),
}

impl Failure {
    fn error(&self) -> &io::Error
        ensures { result.now ≡ error_of self.now }
    {
        match self {
            Failure::Input(error) | Failure::Packets(error) | Failure::Output(error) => error,
        }
    }
}

impl fmt::Display for Failure {
    fn fmt<W: fmt::Write>(&self, f: &mut fmt::Formatter<W>) -> fmt::Result {
        match self {
            Failure::Input(error) => write!(f, "standard input: {error}"),
            Failure::Packets(error) => write!(f, "packets: {error}"),
            Failure::Output(error) => write!(f, "standard output: {error}"),
        }
    }
}

impl Error for Failure {}

// What `main` answers.
#[derive(Drop)]
pub struct Ending(pub Result<(), Failure>);

// The status of a program that wrote where nobody reads on, as its shell tells it.
const UNREAD: u8 = 141;

impl Termination for Ending {
    // Where nobody reads on there is nobody to be told.
    fn report<R: Eprint>(self, rt: &R) -> ExitCode
        ensures { exit_status result ≡ status self.0 }
    {
        match self.0 {
            Ok(()) => ExitCode::SUCCESS,
            Err(failure) => match failure.error().kind() {
                io::ErrorKind::BrokenPipe => ExitCode::from(UNREAD),
                _ => {
                    let _ = eprintln!(rt; "{failure}");
                    ExitCode::FAILURE
                }
            },
        }
    }
}
