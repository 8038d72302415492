// Why a command could not be carried out: its input is none, or there was no memory, or nothing to read from or write to.
use std::alloc::{AllocError, AllocFailed};
use std::{fmt, io};

// What a line of input should have been.
#[derive(Clone, Copy, PartialEq, Eq, Debug)]
pub enum Expected {
    Handle,
    Record,
    Bytes,
}

#[derive(Debug, Drop)]
pub enum Failure {
    Usage,
    Point,
    Line(usize, Expected),
    NoHandle,
    Memory,
    Stream(io::Error),
}

impl fmt::Display for Expected {
    fn fmt<W: fmt::Write>(&self, f: &mut fmt::Formatter<W>) -> fmt::Result {
        match self {
            Expected::Handle => write!(f, "`handle N`, with N from 0 to 4294967295"),
            Expected::Record => write!(
                f,
                "`POINT VALUE`, a point from 0 to 65535 and a value from -2147483648 to 2147483647"
            ),
            Expected::Bytes => write!(f, "hexadecimal bytes, two digits each"),
        }
    }
}

impl fmt::Display for Failure {
    fn fmt<W: fmt::Write>(&self, f: &mut fmt::Formatter<W>) -> fmt::Result {
        match self {
            Failure::Usage => write!(
                f,
                "expected `encode`, `decode` or `ask POINT`; without a word it explains them"
            ),
            Failure::Point => write!(f, "expected `ask POINT`, with a point from 0 to 65535"),
            Failure::Line(line, expected) => write!(f, "line {line}: expected {expected}"),
            Failure::NoHandle => write!(f, "end of input: expected {}", Expected::Handle),
            Failure::Memory => write!(f, "no memory"),
            Failure::Stream(e) => write!(f, "{e}"),
        }
    }
}

impl From<io::Error> for Failure {
    fn from(e: io::Error) -> Failure {
        Failure::Stream(e)
    }
}

// By hand, and twice: a derived conversion keeps the error, and a `Failed` that tells of no memory has none.
impl From<AllocError> for Failure {
    fn from(_e: AllocError) -> Failure {
        Failure::Memory
    }
}

impl<T: Drop> From<AllocFailed<T>> for Failure {
    fn from(_e: AllocFailed<T>) -> Failure {
        Failure::Memory
    }
}
