//! How all workers end.

use crate::gate::Gate;
use crate::place::Place;
use crate::site::{Crew, Site};
use crate::stage::Stage;
use book_lock::Sharing;
use std::net::Shutdown;
use std::thread;
use std::time::{Duration, Instant};

/// How long to wait between two looks at the workers, in milliseconds.
const LOOK_MILLIS: u64 = 10;

/// Waits until all places have ended, for `grace` at most. Returns whether all have.
fn wait_for_places<A: Sharing, H: Crew>(site: &Site<'_, A, H>, grace: Duration) -> bool {
    let Ok(start) = Instant::now(site.rt) else {
        return false;
    };
    for _ in site.rt.forever() {
        if site.places() == 0 {
            return true;
        }
        match start.elapsed(site.rt) {
            Ok(passed) if passed < grace => {
                thread::sleep(site.rt, Duration::from_millis(LOOK_MILLIS));
            }
            _ => return false,
        }
    }
    false
}

/// Accepts no further connection and reads no further block: what was read is answered within `grace`, and then each
/// connection that has not ended is cut.
fn close<A: Sharing, H: Crew>(
    site: &Site<'_, A, H>,
    gates: &[Gate],
    places: &[Place<A>],
    grace: Duration,
) {
    site.go_to(Stage::Closing);
    for gate in gates {
        gate.shut();
    }
    for place in places {
        place.hold().shut(site.rt, Shutdown::Read);
    }
    if !wait_for_places(site, grace) {
        for place in places {
            place.hold().shut(site.rt, Shutdown::Both);
        }
    }
    site.shared.finish(site.rt);
}

/// What becomes of the messages that wait for delivery when a service stops.
#[derive(Clone, Copy, PartialEq, Eq)]
pub enum StopMode {
    /// They are delivered: the posts go on until nothing waits but for destinations that are held.
    Drain,
    /// They are left: no further attempt begins. A wait for a destination ends within 250 ms, but a connect or a name lookup
    /// that is under way is waited for.
    Now,
}

/// Ends all workers. Connections have at most `grace` to get the acknowledgments of what was read.
pub fn stop<A: Sharing, H: Crew>(
    site: &Site<'_, A, H>,
    gates: &[Gate],
    places: &[Place<A>],
    mode: StopMode,
    grace: Duration,
) {
    if site.stage() == Stage::Open {
        close(site, gates, places, grace);
    }
    if mode == StopMode::Now {
        site.go_to(Stage::Halted);
        site.shared.finish(site.rt);
    }
}

/// Whether all places and posts have ended.
pub fn has_ended<A: Sharing, H: Crew>(site: &Site<'_, A, H>) -> bool {
    site.places() == 0 && site.posts() == 0
}
