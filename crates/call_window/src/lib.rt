//! What the programs share that play calls whose requests for memory may be refused: the lines around such a call, how its answer
//! is written, how a script is played, the words of a line, and all that a book shows of itself.
#![tactic(auto)]

pub mod answers;
pub mod book_state;
pub mod plans;
pub mod script;
pub mod words;

use play_script::shown;
use std::alloc::{AllocError, Global};
use std::io::{self, Write};

/// What a call is answered with where it was refused memory.
const NO_MEMORY: &str = "out of memory";

/// Whether a call's requests may be refused, and where that is written.
#[derive(Clone, Copy)]
pub struct Window<'a> {
    rt: &'a HostRuntime,
    tried: bool,
}

impl<'a> Window<'a> {
    /// Lines are written where a call is tried, and else none.
    pub fn new(rt: &'a HostRuntime, tried: bool) -> Window<'a> {
        Window { rt, tried }
    }

    /// Writes that the call's requests begin. It requests no memory.
    ///
    /// # Errors
    ///
    /// Where standard output can't be written.
    pub fn begin(&self) -> io::Result<()> {
        if self.tried {
            io::writer(self.rt).write_all(b"begin\n")?;
        }
        Ok(())
    }

    /// Writes that the call's requests have ended. It requests no memory.
    ///
    /// # Errors
    ///
    /// Where standard output can't be written.
    pub fn end(&self) -> io::Result<()> {
        if self.tried {
            io::writer(self.rt).write_all(b"end\n")?;
        }
        Ok(())
    }
}

/// That a call was refused memory.
///
/// # Errors
///
/// Where memory is refused.
pub fn no_memory(alloc: Global) -> Result<String, AllocError> {
    String::from_str(alloc, NO_MEMORY)
}

/// That a call was made, or was refused memory.
///
/// # Errors
///
/// Where memory is refused.
pub fn done(alloc: Global, made: Result<(), AllocError>) -> Result<String, AllocError> {
    match made {
        Ok(()) => String::from_str(alloc, "ok"),
        Err(AllocError) => no_memory(alloc),
    }
}

/// The bytes that a call made, or that it was refused memory.
///
/// # Errors
///
/// Where memory is refused.
pub fn made(alloc: Global, bytes: Result<Vec<u8>, AllocError>) -> Result<String, AllocError> {
    match bytes {
        Ok(bytes) => shown(alloc, &bytes),
        Err(AllocError) => no_memory(alloc),
    }
}
