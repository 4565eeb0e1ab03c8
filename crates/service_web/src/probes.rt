//! Whether a service works, and whether it takes messages.

ghost use Rattle.std.specs.Prelude.{◌≡◌};
ghost use Rattle.service_web.specs.inner.Probes.{health_is, readiness_is};

use service_http::Status;
use service_workers::Stage;

/// How many posts a service has.
const POSTS: u32 = 32;

/// Whether all that delivers works, or ends in order.
pub fn health(stage: Stage, posts: u32) -> Status
    ensures { result ≡ health_is stage posts }
{
    if stage == Stage::Open && posts < POSTS {
        Status::Unavailable
    } else {
        Status::Ok
    }
}

/// Whether messages are taken.
pub fn readiness(stage: Stage) -> Status
    ensures { result ≡ readiness_is stage }
{
    if stage == Stage::Open {
        Status::Ok
    } else {
        Status::Unavailable
    }
}
