//! The thread that answers requests.

use crate::counting::Counting;
use crate::door::{Door, PEERS_MAX};
use crate::peer::{Accepted, Next, Peer, Step, accept, wait};
use crate::responder::{Responder, millis};
use book_lock::Sharing;
use service_http::Status;
use service_workers::{Crew, Site, Stage, has_ended};
use std::alloc::AllocError;

/// How long no connection is accepted where the system lacked something for one, in milliseconds.
const RETRY_MILLIS: u64 = 100;

/// Reads what has arrived of a request, and answers it once it is whole. Returns whether the connection goes on.
fn read_some<A: Sharing, H: Crew, C: Counting>(
    responder: &mut Responder<'_, '_, A, H, C>,
    peer: &mut Peer,
    now: u64,
) -> bool {
    match peer.read_some() {
        Next::Wait => return true,
        Next::End => return false,
        Next::Arrived => {}
    }
    match responder.reply(&peer.input) {
        Ok(None) => true,
        Ok(Some(output)) => {
            peer.begin_answer(output, now);
            true
        }
        Err(AllocError) => false,
    }
}

/// Begins to say that a request took too long, where some of it has arrived. Returns whether it does.
fn time_out<A: Sharing, H: Crew, C: Counting>(
    responder: &Responder<'_, '_, A, H, C>,
    peer: &mut Peer,
    now: u64,
) -> bool {
    if peer.step != Step::Reading || peer.input.is_empty() {
        return false;
    }
    match responder.refusal(Status::RequestTimeout) {
        Ok(output) => {
            peer.begin_answer(output, now);
            true
        }
        Err(AllocError) => false,
    }
}

/// Goes on with a connection as far as it can without waiting. Returns whether the connection goes on.
fn go_on<A: Sharing, H: Crew, C: Counting>(
    responder: &mut Responder<'_, '_, A, H, C>,
    peer: &mut Peer,
) -> bool {
    let now = millis(responder.site.rt);
    if peer.is_late(now) && !time_out(&*responder, &mut *peer, now) {
        return false;
    }
    if peer.step == Step::Reading && !read_some(&mut *responder, &mut *peer, now) {
        return false;
    }
    if peer.step == Step::Writing && peer.write_some(now) == Next::End {
        return false;
    }
    peer.step != Step::Draining || peer.drop_some() != Next::End
}

/// Accepts the connections that wait. Where there is no room, the oldest ends. Returns whether the system lacked something for one.
fn accept_all<A: Sharing, H: Crew, C: Counting>(
    responder: &mut Responder<'_, '_, A, H, C>,
    door: &Door,
    peers: &mut Vec<Peer>,
) -> bool {
    let site = responder.site;
    for _ in 0..PEERS_MAX {
        let mut peer = match accept(site.alloc, door, millis(site.rt)) {
            Accepted::Peer(peer) => peer,
            Accepted::Nothing => return false,
            Accepted::Lacking => return true,
        };
        if go_on(&mut *responder, &mut peer) {
            if peers.len() >= PEERS_MAX {
                peers.remove(0);
            }
            if peers.push(peer).is_err() {
                return true;
            }
        }
    }
    false
}

/// Goes on with all connections, and keeps those that go on.
fn go_on_with<A: Sharing, H: Crew, C: Counting>(
    responder: &mut Responder<'_, '_, A, H, C>,
    peers: &mut Vec<Peer>,
) {
    let mut index = 0;
    for _ in 0..PEERS_MAX {
        if index >= peers.len() {
            return;
        }
        if go_on(&mut *responder, &mut peers[index]) {
            index += 1;
        } else {
            peers.remove(index);
        }
    }
}

/// Answers requests until all workers have ended.
pub fn answer_requests<A: Sharing, H: Crew, C: Counting + Drop>(
    site: &Site<'_, A, H>,
    door: &Door,
    counting: C,
) {
    let mut responder = Responder::new(site, &door.names, counting);
    let mut peers = Vec::new(site.alloc);
    let mut closed_until: u64 = 0;
    // What fails from now on is seen as new.
    responder.watch();
    for _ in site.rt.forever() {
        if site.stage() != Stage::Open && has_ended(site) {
            return;
        }
        let is_open = millis(site.rt) >= closed_until;
        wait(door, is_open, &peers);
        responder.watch();
        if is_open && accept_all(&mut responder, door, &mut peers) {
            closed_until = millis(site.rt).saturating_add(RETRY_MILLIS);
        }
        go_on_with(&mut responder, &mut peers);
    }
}
