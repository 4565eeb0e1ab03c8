//! The end of a service's work.

ghost use Rattle.std.specs.Prelude.{◌≡◌, ◌+◌, IfOk, IfSome, IsTrue, List, is_some, map, vec_len};
ghost use Rattle.book_lock.specs.Durable.{HasCommitted};
ghost use Rattle.book_lock.specs.Shares.{seats_of};
ghost use Rattle.delivery_worker.specs.Sent.{IsTracedTo, StationWork};

use crate::post::PostWork;
use crate::site::ServiceRows;
use book_lock::{Closed, Desk, Shared, Sharing, Station};
use std::alloc::{AllocError, Global};

/// The stations of posts, in the order of the posts.
///
/// # Errors
///
/// Where memory is refused.
fn stations_of<A: Sharing>(
    alloc: Global,
    posts: Vec<PostWork<A>>,
) -> Result<Vec<Station<A>>, AllocError>
    ensures { IfOk result (λ stations. stations.items ≡ map (λ p. p.station) posts.items) }
{
    let mut stations = Vec::new(alloc);
    for post in posts {
        let PostWork { station, .. } = post;
        stations.push(station)?;
    }
    Ok(stations)
}

/// Takes the book out of its lock, once the workers have ended, with the desks and what delivered that they returned. It
/// is none where shares of the book are missing, and some where all desks and stations are there.
///
/// A closed book is traced to these desks and stations. Each arrival since the book was shared was booked at one of the
/// desks, each take and settlement was made at one of the stations, and each message that was delivered since was sent
/// at one of them.
///
/// # Errors
///
/// Where memory is refused.
pub fn close_book<A: Sharing>(
    alloc: Global,
    shared: Shared<A, ServiceRows>,
    desks: Vec<Desk<A>>,
    posts: Vec<PostWork<A>>,
) -> Result<Option<Closed<ServiceRows>>, AllocError>
    ensures opening { IfOk result (λ ended. IfSome ended (λ closed.
        (closed.opening ≡ A.counts) × (closed.first ≡ A.first))) }
    ensures whole { (vec_len desks ≡ A.desks) × (vec_len posts ≡ A.stations)
        → IfOk result (λ ended. IsTrue (is_some ended)) }
    // Each index that was published as durable follows the commit of all changes below it.
    ensures committed { IfOk result (λ ended. IfSome ended (λ closed.
        HasCommitted A.opening A.committed (A.desks + A.stations + 1)
        (seats_of desks.items (map (λ p. p.station) posts.items)) closed.book)) }
    ensures traced { IfOk result (λ ended. IfSome ended (λ closed.
        ∥ ((works : List (StationWork A.opening)) × IsTracedTo A.opening
        desks.items (map (λ p. p.station) posts.items) works closed.book) ∥₁)) }
{
    let stations = stations_of(alloc, posts)?;
    Ok(shared.close(desks, stations).ok())
}
