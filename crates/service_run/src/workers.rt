//! What works in a service.

ghost use Rattle.std.specs.Prelude.{All};
ghost use Rattle.delivery_worker.specs.Sent.{IsUnused};

use crate::listeners::Listeners;
use book_lock::{Desk, Sharing, Station};
use notify_socket::NotifySocket;
use service_web::Door;
use service_workers::{Gate, OperatorDesk, Place, Post, PostWork};
use std::alloc::{AllocError, Global};

/// What works: the listeners of the channels, the places at which connections are served, and the posts that deliver.
#[derive(Drop)]
pub struct Workers<A: Sharing> {
    /// The listeners, in the order of the plan's channels.
    pub gates: Vec<Gate>,
    /// The listener of the HTTP address, where there is one.
    pub door: Option<Door>,
    /// The socket to the service manager, where there is one.
    pub manager: Option<NotifySocket>,
    /// The place at index `k` is one of channel `k` modulo the number of channels.
    pub places: Vec<Place<A>>,
    /// The posts, by destination.
    pub posts: Vec<Post<A>>,
    /// The desk by which commands wait until what they changed survives a crash.
    pub operator: OperatorDesk<A>,
}

/// The desks of workers that have ended, and what delivered.
#[derive(Drop)]
pub struct Returned<A: Sharing> {
    pub desks: Vec<Desk<A>>,
    pub posts: Vec<PostWork<A>>,
}

/// A place for each desk.
fn places_of<A: Sharing>(alloc: Global, desks: Vec<Desk<A>>) -> Result<Vec<Place<A>>, AllocError> {
    let mut places = Vec::new(alloc);
    for desk in desks {
        places.push(Place::new(desk))?;
    }
    Ok(places)
}

/// A post for each station, which has made no call: the first is that of the first destination.
fn posts_of<A: Sharing>(
    alloc: Global,
    stations: Vec<Station<A>>,
) -> Result<Vec<Post<A>>, AllocError>
    requires { All (λ s. IsUnused s.seat) stations.items }
{
    let mut stations = stations.into_iter();
    let mut posts = Vec::new(alloc);
    for destination in 0..u32::MAX {
        let Some(station) = stations.next() else {
            break;
        };
        posts.push(Post::new(destination, station))?;
    }
    Ok(posts)
}

/// The desks of places that have ended.
fn desks_of<A: Sharing>(alloc: Global, places: Vec<Place<A>>) -> Result<Vec<Desk<A>>, AllocError> {
    let mut desks = Vec::new(alloc);
    for place in places {
        if let Some(desk) = place.into_desk() {
            desks.push(desk)?;
        }
    }
    Ok(desks)
}

/// What delivered at posts that have ended.
fn works_of<A: Sharing>(
    alloc: Global,
    posts: Vec<Post<A>>,
) -> Result<Vec<PostWork<A>>, AllocError> {
    let mut works = Vec::new(alloc);
    for post in posts {
        if let Some(work) = post.into_work() {
            works.push(work)?;
        }
    }
    Ok(works)
}

/// Adds the operator's desk, and the journal's, where there is one.
fn add_desks<A: Sharing>(
    desks: &mut Vec<Desk<A>>,
    operator: Desk<A>,
    journal: Option<Desk<A>>,
) -> Result<(), AllocError> {
    desks.push(operator)?;
    if let Some(journal) = journal {
        desks.push(journal)?;
    }
    Ok(())
}

impl<A: Sharing> Workers<A> {
    /// An operator with the last desk, a place for each other desk, and a post for each station, which has made no call.
    ///
    /// # Errors
    ///
    /// Where memory is refused, or there is no desk.
    pub fn new(
        alloc: Global,
        listeners: Listeners,
        mut desks: Vec<Desk<A>>,
        stations: Vec<Station<A>>,
    ) -> Result<Self, AllocError>
        requires { All (λ s. IsUnused s.seat) stations.items }
    {
        let operator = OperatorDesk::new(desks.pop().ok_or(AllocError)?);
        let Listeners {
            gates,
            door,
            manager,
        } = listeners;
        Ok(Workers {
            gates,
            door,
            manager,
            places: places_of(alloc, desks)?,
            posts: posts_of(alloc, stations)?,
            operator,
        })
    }

    /// The desks, with that of the journal, where there is one, and what delivered, once all workers have ended.
    ///
    /// # Errors
    ///
    /// Where memory is refused.
    pub fn into_returned(
        self,
        alloc: Global,
        journal: Option<Desk<A>>,
    ) -> Result<Returned<A>, AllocError> {
        let Workers {
            places,
            posts,
            operator,
            ..
        } = self;
        let posts = works_of(alloc, posts)?;
        let mut desks = desks_of(alloc, places)?;
        add_desks(&mut desks, operator.into_desk(), journal)?;
        Ok(Returned { desks, posts })
    }
}
