//! A post: it delivers the messages of one queue.

ghost use Rattle.std.specs.Prelude.{◌≡◌};
ghost use Rattle.delivery_worker.specs.Sent.{IsUnused};
ghost use Rattle.delivery_worker.specs.inner.Works.{HasDelivered};

use crate::noted_link::NotedLink;
use crate::site::{Crew, Site};
use crate::stage::Stage;
use book_lock::{Sharing, Station};
use conn_worker::Steady;
use delivery_worker::{DeliverReport, Halt, deliver_until};
use std::sync::Mutex;

/// What delivers the messages of one queue: the index of the queue's destination, the station of its takes and
/// settlements, and the outcome of delivering, once it ended. The calls of the station are those of the attempts that
/// the report counts, for this destination. Without a report it has made no call.
#[derive(Drop)]
pub struct PostWork<A: Sharing> {
    pub destination: u32,
    pub station: Station<A>,
    pub report: Option<DeliverReport>,
    ghost delivered: { ∥ HasDelivered A.opening destination station.seat report ∥₁ },
}

impl<A: Sharing> PostWork<A> {
    /// What is to deliver the messages of the queue of a destination, with a station that has made no call.
    fn new(destination: u32, station: Station<A>) -> Self
        requires { IsUnused station.seat }
        ensures destination { result.destination ≡ destination }
        ensures station { result.station ≡ station }
    {
        PostWork {
            destination,
            station,
            report: None,
        }
    }
}

/// A post: what delivers the messages of one queue, while nobody works there.
#[derive(Drop)]
pub struct Post<A: Sharing> {
    work: Mutex<Option<PostWork<A>>>,
}

impl<A: Sharing> Post<A> {
    /// A post of the queue of a destination, with a station that has made no call.
    pub fn new(destination: u32, station: Station<A>) -> Self
        requires { IsUnused station.seat }
    {
        Post {
            work: Mutex::new(Some(PostWork::new(destination, station))),
        }
    }

    /// What delivered at a post that has ended.
    pub fn into_work(self) -> Option<PostWork<A>> {
        let Post { work } = self;
        work.into_inner()
    }
}

/// The posts end once the service is halted, and take nothing for a destination that is held.
impl<A: Sharing, H: Crew> Halt for Site<'_, A, H> {
    fn is_halted(&self) -> bool {
        self.stage() == Stage::Halted
    }

    fn is_held(&self, d: u32) -> bool {
        self.is_held_at(d)
    }
}

/// Delivers until no arrival follows and the queue is empty or held, or the service is halted. Where there is a report already,
/// nothing is done.
fn deliver_all<A: Sharing, H: Crew>(site: &Site<'_, A, H>, work: PostWork<A>) -> PostWork<A>
    ensures { result.destination ≡ work.destination }
{
    if work.report.is_some() {
        return work;
    }
    let PostWork {
        destination,
        mut station,
        ..
    } = work;
    let mut link = NotedLink::new(site, destination);
    let report = deliver_until(
        site.rt,
        site.alloc,
        site.shared,
        &mut station,
        &mut link,
        destination,
        site.take_rule(),
        &mut Steady::not_before(site.rt, site.last_second),
        site,
    );
    PostWork {
        destination,
        station,
        report: Some(report),
    }
}

/// Works at a post until no arrival follows and the queue is empty or held, or the service is halted.
pub fn work_post<A: Sharing, H: Crew>(site: &Site<'_, A, H>, post: &Post<A>) {
    let taken = post.work.lock(site.rt).take();
    if let Some(work) = taken {
        let worked = deliver_all(site, work);
        *post.work.lock(site.rt) = Some(worked);
    }
    site.end_post();
}
