//! Why a session stops.

use std::alloc::{AllocError, AllocFailed, Global};

/// Something came otherwise, which is told here, or memory was wanting.
#[derive(Drop)]
pub(crate) enum Stop {
    Otherwise(String),
    NoMemory,
}

impl From<AllocError> for Stop {
    fn from(_: AllocError) -> Self {
        Stop::NoMemory
    }
}

impl<T: Drop> From<AllocFailed<T>> for Stop {
    fn from(_: AllocFailed<T>) -> Self {
        Stop::NoMemory
    }
}

/// The stop that this text tells.
fn stop_of(text: Result<String, AllocError>) -> Stop {
    match text {
        Ok(text) => Stop::Otherwise(text),
        Err(_) => Stop::NoMemory,
    }
}

/// The stop that a text and a name tell.
pub(crate) fn told(alloc: Global, what: &str, name: &str) -> Stop {
    stop_of(format!(in alloc; "{what} {name:?}"))
}

/// The stop where one text was expected and another came.
pub(crate) fn otherwise(alloc: Global, what: &str, expected: &str, came: &str) -> Stop {
    stop_of(format!(in alloc; "{what}: expected {expected:?}, came {came:?}"))
}

/// The stop at a line with its number.
pub(crate) fn at_line(alloc: Global, number: usize, line: &str, stop: Stop) -> Stop {
    match stop {
        Stop::Otherwise(text) => stop_of(format!(in alloc; "line {number} ({line}): {text}")),
        Stop::NoMemory => Stop::NoMemory,
    }
}
