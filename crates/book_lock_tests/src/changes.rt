//! Plans and prunings that a shared book refuses, and messages that come after a deployment.

use crate::stage::{Done, M1, M2, Task, Waiting, bring, comes_out, plan_of};
use book_core::{BookRows, DeployRefusal, EVENTS_MAX, PruneRefusal, Told};
use book_lock::{Desk, Shared, Sharing, Station};
use hl7_head::Cause;
use log::Log;
use plan_text::Plan;
use std::alloc::Global;
use std::hash::RandomState;
use std::sync::{Arc, Wait};
use std::test::Fail;

/// M1 under the control id M1B.
const M1B: &str =
    "MSH|^~\\&|REG|HOSP|ENG|HUB|20231114221300||ADT^A01^ADT_A01|M1B|P|2.5.1|||AL|NE\rPID|1||77^^^H\r";

/// What a plan says, which else is the built-in one.
#[derive(Clone, Copy)]
struct Said {
    destination: &'static str,
    interval: u32,
    channel: &'static str,
    version: &'static str,
}

const BUILT_IN: Said = Said {
    destination: "LAB",
    interval: 10,
    channel: "ADT",
    version: "2.5.1",
};

const RENAMED_DESTINATION: Said = Said {
    destination: "XRAY",
    interval: 10,
    channel: "ADT",
    version: "2.5.1",
};

const RENAMED_CHANNEL: Said = Said {
    destination: "LAB",
    interval: 10,
    channel: "ORM",
    version: "2.5.1",
};

const SLOWER: Said = Said {
    destination: "LAB",
    interval: 20,
    channel: "ADT",
    version: "2.5.1",
};

/// The slower one for version 2.6 alone.
const NEWER: Said = Said {
    destination: "LAB",
    interval: 20,
    channel: "ADT",
    version: "2.6",
};

/// A plan that says this. None where memory is refused.
fn plan_said(alloc: Global, said: Said) -> Option<Arc<Plan>> {
    let text = format!(in alloc;
        r#"
[[destination]]
name = "{}"
address = "127.0.0.1:6661"
interval = {}

[[channel]]
name = "{}"
listen = "127.0.0.1:6660"
types = ["ADT"]
processing = ["P", "T"]
versions = ["{}"]
route = [{{ to = "{}" }}]
"#,
        said.destination, said.interval, said.channel, said.version, said.destination
    );
    plan_of(alloc, text.ok()?.as_str())
}

/// A call with its answer.
#[derive(Clone, Copy)]
enum Call {
    /// A plan is deployed.
    Deploy(Said, Result<(), DeployRefusal>),
    /// A plan is deployed as often as this.
    Deploys(u32, Said),
    /// The messages numbered below this are forgotten.
    Prune(u32, Result<(), PruneRefusal>),
    /// As many prunings, each of the messages numbered below this.
    Prunes(u32, u32),
    /// A message comes by connection 0.
    Bring(&'static str, Told),
}

/// Calls of a book of the built-in plan, what is in force after them, and how many entries there are then.
struct Case {
    room: u32,
    messages: &'static [&'static str],
    calls: &'static [Call],
    plan: Said,
    len: usize,
}

const CASES: [Case; 4] = [
    // a deployment that is refused changes nothing, and messages are judged by the plan of the last one
    Case {
        room: EVENTS_MAX,
        messages: &[M1],
        calls: &[
            Call::Deploy(RENAMED_CHANNEL, Err(DeployRefusal::ChannelsDiffer)),
            Call::Deploy(RENAMED_DESTINATION, Err(DeployRefusal::DestinationInUse(0))),
            Call::Deploy(SLOWER, Ok(())),
            Call::Deploy(NEWER, Ok(())),
            Call::Bring(M1, Told::Repeat(0)),
            Call::Bring(M1B, Told::Refused(Cause::UnsupportedVersion)),
        ],
        plan: NEWER,
        len: 5,
    },
    // one entry and seven owed of ten: there is room for two deployments
    Case {
        room: 10,
        messages: &[M1],
        calls: &[
            Call::Deploys(2, SLOWER),
            Call::Deploy(BUILT_IN, Err(DeployRefusal::Full)),
        ],
        plan: SLOWER,
        len: 3,
    },
    // a thousand deployments at most
    Case {
        room: EVENTS_MAX,
        messages: &[M1],
        calls: &[
            Call::Deploys(1000, BUILT_IN),
            Call::Deploy(SLOWER, Err(DeployRefusal::TooMany)),
            Call::Bring(M1B, Told::Accepted(1)),
        ],
        plan: BUILT_IN,
        len: 1002,
    },
    // a thousand prunings at most
    Case {
        room: EVENTS_MAX,
        messages: &[M1, M2],
        calls: &[
            Call::Prune(3, Err(PruneRefusal::NoSuchMessage)),
            Call::Prune(2, Err(PruneRefusal::StillLive(0))),
            Call::Prunes(1000, 0),
            Call::Prune(0, Err(PruneRefusal::TooMany)),
            Call::Bring(M1, Told::Repeat(0)),
        ],
        plan: BUILT_IN,
        len: 3,
    },
];

/// Whether a deployment of a plan is answered as is due.
fn deploys<A: Sharing, S: BookRows, H: Wait + Log>(
    rt: &H,
    alloc: Global,
    shared: &Shared<A, S>,
    said: Said,
    due: Result<(), DeployRefusal>,
) -> bool {
    match plan_said(alloc, said) {
        Some(plan) => shared.deploy(rt, plan) == due,
        None => false,
    }
}

/// Whether as many deployments of a plan as this are made.
fn deploys_all<A: Sharing, S: BookRows, H: Wait + Log>(
    rt: &H,
    alloc: Global,
    shared: &Shared<A, S>,
    count: u32,
    said: Said,
) -> bool {
    for _ in 0..count {
        if !deploys(rt, alloc, shared, said, Ok(())) {
            return false;
        }
    }
    true
}

/// Whether as many prunings as this are made.
fn prunes_all<A: Sharing, S: BookRows, H: Wait + Log>(
    rt: &H,
    shared: &Shared<A, S>,
    count: u32,
    before: u32,
) -> bool {
    for _ in 0..count {
        if shared.prune(rt, before).is_err() {
            return false;
        }
    }
    true
}

/// Whether a call is answered as is due.
fn is_met<A: Sharing, S: BookRows, H: Wait + Log>(
    rt: &H,
    alloc: Global,
    shared: &Shared<A, S>,
    desk: &mut Desk<A>,
    call: Call,
) -> bool {
    match call {
        Call::Deploy(said, due) => deploys(rt, alloc, shared, said, due),
        Call::Deploys(count, said) => deploys_all(rt, alloc, shared, count, said),
        Call::Prune(before, due) => shared.prune(rt, before) == due,
        Call::Prunes(count, before) => prunes_all(rt, shared, count, before),
        Call::Bring(text, due) => match bring(rt, alloc, shared, desk, 0, text) {
            Some(receipt) => receipt.told == due,
            None => false,
        },
    }
}

/// The first of these calls that is answered otherwise than is due; those behind it aren't made.
fn first_unmet<A: Sharing, S: BookRows, H: Wait + Log>(
    rt: &H,
    alloc: Global,
    shared: &Shared<A, S>,
    desk: &mut Desk<A>,
    calls: &[Call],
) -> Option<usize> {
    for (index, call) in calls.iter().enumerate() {
        if !is_met(rt, alloc, shared, desk, *call) {
            return Some(index);
        }
    }
    None
}

/// Whether this plan is in force.
fn is_in_force<A: Sharing, S: BookRows, H: Wait + Log>(
    rt: &H,
    shared: &Shared<A, S>,
    due: &Plan,
) -> bool {
    match shared.plan(rt) {
        Ok(plan) => plan.same(due),
        Err(_) => false,
    }
}

/// What the calls of a case answered, the plan that should be in force after them, and whether it was.
#[derive(Drop)]
struct Answers {
    /// The first call that was answered otherwise.
    unmet: Option<usize>,
    due: Arc<Plan>,
    in_force: bool,
}

impl Task for Case {
    type Answer = Answers;

    fn work<A: Sharing, S: BookRows, H: Wait + Log>(
        &self,
        rt: &H,
        alloc: Global,
        shared: &Shared<A, S>,
        desks: &mut [Desk<A>],
        _: &mut [Station<A>],
    ) -> Option<Answers> {
        let desk = desks.first_mut()?;
        let unmet = first_unmet(rt, alloc, shared, desk, self.calls);
        let due = plan_said(alloc, self.plan)?;
        let in_force = is_in_force(rt, shared, &due);
        Some(Answers {
            unmet,
            due,
            in_force,
        })
    }

    /// Whether each call was answered as is due, and the plan in force and the number of entries are as they should be.
    fn is_right<S: BookRows>(&self, done: &Done<Answers, S>) -> bool {
        let (answers, book) = (&done.answer, done.closed.book());
        answers.unmet.is_none()
            && answers.in_force
            && book.plan().same(&answers.due)
            && book.len() == self.len
    }
}

/// Each case comes out as it is to.
#[test]
fn cases(rt: HostRuntime) -> Result<(), Fail> {
    let hasher = RandomState::new(&rt)?;
    for (index, case) in CASES.iter().enumerate() {
        let due = Waiting {
            four: false,
            room: case.room,
            messages: case.messages,
        };
        let right = comes_out(&rt, rt.alloc(), hasher, &due, case)?;
        assert!(rt; right, "case {index}");
    }
    Ok(())
}
