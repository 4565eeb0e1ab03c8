//! Standard input, at which waiting ends once the workers have ended.

use crate::site::{Crew, Site};
use crate::stage::Stage;
use crate::stopping::has_ended;
use book_lock::Sharing;
use libc::net as c;
use libc::types::pollfd;
use std::io;
use std::io::Read;

/// The descriptor of standard input.
const STANDARD_INPUT: i32 = 0;

/// How long to wait for input before looking at the workers, in milliseconds.
const LOOK_MILLIS: i32 = 100;

/// A reader of standard input. While the service ends, it is at its end once all workers have ended, even where its writer
/// keeps it open.
#[derive(Drop)]
pub struct StandardInput<'s, 'x, A: Sharing, H, R> {
    site: &'s Site<'x, A, H>,
    input: R,
}

impl<'s, 'x, A: Sharing, H: Crew, R: Read> StandardInput<'s, 'x, A, H, R> {
    /// A reader of this input, which reads descriptor 0.
    pub fn new(site: &'s Site<'x, A, H>, input: R) -> Self {
        StandardInput { site, input }
    }

    /// Waits until there is input, or its end; while the service ends, no longer than the workers work. Returns whether there is.
    fn wait(&self) -> bool {
        for _ in self.site.rt.forever() {
            if self.site.stage() != Stage::Open && has_ended(self.site) {
                return false;
            }
            let mut input = [pollfd {
                fd: STANDARD_INPUT,
                events: c::POLLIN,
                revents: 0,
            }];
            if c::poll(&mut input, LOOK_MILLIS) > 0 {
                return true;
            }
        }
        false
    }
}

impl<A: Sharing, H: Crew, R: Read> Read for StandardInput<'_, '_, A, H, R> {
    fn read(&mut self, buf: &mut [u8]) -> io::Result<usize> {
        if self.wait() {
            self.input.read(buf)
        } else {
            Ok(0)
        }
    }
}
