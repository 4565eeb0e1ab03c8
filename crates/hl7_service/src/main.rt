//! An HL7 v2.5.1 interface engine as a service.
#![tactic(auto)]

use engine_report::open_standard;
use service_main::{Trouble, finish, perform, words_given};
use std::marker::PhantomData;
use std::process::ExitCode;

fn main(rt: HostRuntime) -> ExitCode {
    if let Err(fault) = open_standard(&rt) {
        return finish(&rt, Err(Trouble::Engine(fault)));
    }
    match words_given(&rt) {
        Ok(words) => finish(&rt, perform(&rt, &rt, PhantomData, &words)),
        Err(trouble) => finish(&rt, Err(trouble)),
    }
}
