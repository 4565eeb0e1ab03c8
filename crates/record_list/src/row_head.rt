//! What a node has beside its item: its number, the queues that it is in, and its link in the chain of each.

ghost use Rattle.std.specs.Prelude.{◌≡◌, ◌≢◌, ◌<◌, ◌≤◌, ℕ, true, false, IsTrue, IfOk, slice_index_or, slice_set};
ghost use Rattle.std.specs.Option.{is_some};
ghost use Rattle.std.specs.declared.option.Option.TheVariants.{None};
ghost use Rattle.record_list.specs.declared.row_head.Neighbours.{Neighbours};
ghost use Rattle.record_list.specs.inner.Packing.{link_of, mask_after, slot_of};
ghost use Rattle.record_list.specs.inner.Stands.{stands, new_link};

use std::alloc::{AllocError, Global};
use std::marker::Model;

/// A row's number, by which the links of other rows name it: 4 bytes, where a pointer takes 8.
#[derive(Clone, Copy)]
pub struct Place {
    pub(crate) number: u32,
}

impl Place {
    /// What is kept where there is no neighbour.
    fn nowhere() -> Place {
        Place { number: 0 }
    }
}

/// The neighbours of a node in one chain.
#[derive(Clone, Copy)]
pub struct Link {
    pub(crate) prev: Option<Place>,
    pub(crate) next: Option<Place>,
}

/// Which neighbours a node has in a chain.
#[derive(Clone, Copy)]
enum LinkKind {
    /// It isn't in the chain.
    Absent,
    /// It is the only one.
    Alone,
    First,
    Middle,
    Last,
}

impl LinkKind {
    /// The seat of a row that is the only one in a chain, or isn't in it.
    fn alone(there: bool) -> LinkKind
        ensures { (ends : Neighbours) → link_of result ends ≡ new_link there None }
    {
        if there {
            LinkKind::Alone
        } else {
            LinkKind::Absent
        }
    }
}

/// Which rows the neighbours of a node are, where it has them.
#[derive(Clone, Copy)]
struct Neighbours {
    prev: Place,
    next: Place,
}

/// The links in each queue but one, in 9 bytes each.
#[derive(Drop)]
struct OtherLinks {
    seats: [LinkKind; 31],
    ends: [Neighbours; 31],
}

impl Model for OtherLinks {
    ghost use Rattle.std.specs.Prelude.{List};
    ghost use Rattle.std.specs.declared.option.Option.{Option};
    ghost use Rattle.record_list.specs.declared.row_head.Link.{Link};
    ghost use Rattle.record_list.specs.inner.Packing.{links_of};

    ghost Value = { List (Option Link) };

    ghost view = { λ s. links_of s.seats s.ends };
}

impl OtherLinks {
    /// The links of a row that is alone in the queues of its mask.
    fn alone(mask: u32, queue: usize) -> OtherLinks
        requires { queue < 32 }
        ensures { (d : ℕ) → d < 32 → d ≢ queue → slice_index_or result (slot_of queue d) None ≡ new_link (stands d mask) None }
    {
        let nowhere = Place::nowhere();
        let mut seats = [LinkKind::Absent; 31];
        for slot in 0..31 {
            let d = if slot < queue { slot } else { slot + 1 };
            seats[slot] = LinkKind::alone(stands(mask, d));
        }
        OtherLinks {
            seats,
            ends: [Neighbours {
                prev: nowhere,
                next: nowhere,
            }; 31],
        }
    }

    /// The link in this slot.
    fn get(&self, slot: usize) -> Option<Link>
        requires { slot < 31 }
        ensures { result ≡ slice_index_or self.now slot None }
    {
        unpacked(self.seats[slot], self.ends[slot])
    }

    /// Writes the link in this slot.
    fn set(&mut self, slot: usize, link: Option<Link>)
        requires { slot < 31 }
        ensures written { self.new ≡ slice_set self.old slot link }
        ensures stands { slice_index_or self.new slot None ≡ link }
    {
        let (seat, ends) = packed(link);
        self.seats[slot] = seat;
        self.ends[slot] = ends;
    }
}

/// The first queue of a row as it was pushed, and its node's seat there.
#[derive(Clone, Copy)]
struct QueueSeat {
    queue: u8,
    seat: LinkKind,
}

/// The queues that a row is in that was pushed into several, its neighbours in the first of them, and its links in the
/// others.
#[derive(Drop)]
pub struct QueueLinks {
    mask: u32,
    first: Neighbours,
    others: OtherLinks,
}

/// The block of a row of several queues takes 292 bytes.
const _: () = prove!(size_of::<QueueLinks>() == 292);

impl QueueLinks {
    /// Writes the link in a queue that isn't the first. With no link the row is out of that queue.
    fn set_other(&mut self, queue: usize, d: usize, link: Option<Link>)
        requires other { d ≢ queue }
        requires queues { (d < 32) × (queue < 32) }
        ensures first { self.new.first ≡ self.old.first }
        ensures others { self.new.others ≡ slice_set self.old.others (slot_of queue d) link }
        ensures stands { slice_index_or self.new.others (slot_of queue d) None ≡ link }
        ensures mask { self.new.mask ≡ mask_after d (is_some link) self.old.mask }
    {
        self.others.set(slot_of(queue, d), link);
        self.mask = mask_after(self.mask, d, link.is_some());
    }
}

/// A row's number, its seat in its first queue, and its neighbours in queues. For memory, what they take is laid out so
/// that none of it is padding, with the number between the seat and the neighbours.
#[derive(Drop)]
enum HeadParts {
    /// The row was pushed into one queue, or none: its neighbours there. It is in no other, so its seat tells its mask.
    OneQueue(QueueSeat, u32, Neighbours),
    /// The row was pushed into several queues: its mask and its links, in a block of their own.
    Several(QueueSeat, u32, Box<QueueLinks>),
}

impl HeadParts {
    ghost use Rattle.record_list.specs.inner.Seating.{number_of, mask_with, queue_seat_of, queue_ends_of, others_of, mask_of};

    /// The row's number.
    fn number(&self) -> u32
        ensures { result ≡ number_of self.now }
    {
        match self {
            HeadParts::OneQueue(_, number, _) => *number,
            HeadParts::Several(_, number, _) => *number,
        }
    }

    /// The first queue, and the seat there.
    fn queue_seat(&self) -> QueueSeat
        ensures { result ≡ queue_seat_of self.now }
    {
        match self {
            HeadParts::OneQueue(first, _, _) => *first,
            HeadParts::Several(first, _, _) => *first,
        }
    }

    /// The ends in the first queue.
    fn queue_ends(&self) -> Neighbours
        ensures { result ≡ queue_ends_of self.now }
    {
        match self {
            HeadParts::OneQueue(_, _, ends) => *ends,
            HeadParts::Several(_, _, links) => links.first,
        }
    }

    /// Writes the link in the first queue. With no link the row is out of that queue.
    fn set_in_queue(&mut self, link: Option<Link>)
        requires { (queue_seat_of self.old).queue < 32 }
        ensures number { number_of self.new ≡ number_of self.old }
        ensures queue { (queue_seat_of self.new).queue ≡ (queue_seat_of self.old).queue }
        ensures link { link_of (queue_seat_of self.new).seat (queue_ends_of self.new) ≡ link }
        ensures rest { others_of self.new ≡ others_of self.old }
        ensures mask { mask_of self.new ≡ mask_with link self.old }
    {
        let (seat, ends) = packed(link);
        match self {
            HeadParts::OneQueue(first, _, kept) => {
                first.seat = seat;
                *kept = ends;
            }
            HeadParts::Several(first, _, links) => {
                first.seat = seat;
                links.first = ends;
                links.mask = mask_after(links.mask, first.queue as usize, link.is_some());
            }
        }
    }
}

/// What a node has beside its item. A row that was pushed into one queue has it all here, and one that was pushed into
/// several has its links in a block of their own.
#[derive(Drop)]
pub struct RowHead {
    parts: HeadParts,
}

/// It takes 16 bytes.
const _: () = prove!(size_of::<RowHead>() == 16);

impl Model for RowHead {
    ghost use Rattle.std.specs.Prelude.{◌<◌};
    ghost use Rattle.record_list.specs.inner.Head.{Head};
    ghost use Rattle.record_list.specs.inner.Seating.{queue_seat_of, head_by};

    ghost Value = { Head };

    ghost view = { λ s. head_by s.parts };

    ghost invariant = { λ s. (queue_seat_of s.parts).queue < 32 };
}

impl RowHead {
    /// The head of a row that is alone in the queues of its mask. An error means that memory for its links in several
    /// queues is refused.
    pub(crate) fn for_queues(alloc: Global, number: u32, mask: u32) -> Result<RowHead, AllocError>
        ensures row { IfOk result (λ head. (head.number ≡ number) × (head.mask ≡ mask)) }
        ensures links { IfOk result (λ head. (d : ℕ) → d < 32 → slice_index_or head.links d None ≡ new_link (stands d mask) None) }
    {
        let queue = mask.trailing_zeros() as usize % 32;
        let in_queue = stands(mask, queue);
        let rest = if in_queue { mask - (1 << queue) } else { mask };
        let first = QueueSeat {
            queue: queue as u8,
            seat: LinkKind::alone(in_queue),
        };
        let nowhere = Neighbours {
            prev: Place::nowhere(),
            next: Place::nowhere(),
        };
        let parts = if rest == 0 {
            HeadParts::OneQueue(first, number, nowhere)
        } else {
            let links = QueueLinks {
                mask,
                first: nowhere,
                others: OtherLinks::alone(mask, queue),
            };
            HeadParts::Several(first, number, Box::new(alloc, links)?)
        };
        Ok(RowHead { parts })
    }

    /// The row's number.
    pub(crate) fn number(&self) -> u32
        ensures { result ≡ self.now.number }
    {
        self.parts.number()
    }

    /// The link in the chain d.
    pub(crate) fn get(&self, d: usize) -> Option<Link>
        requires { d < 32 }
        ensures { result ≡ slice_index_or self.now.links d None }
    {
        let first = self.parts.queue_seat();
        let queue = first.queue as usize;
        if d == queue {
            return unpacked(first.seat, self.parts.queue_ends());
        }
        match &self.parts {
            HeadParts::OneQueue(..) => None,
            HeadParts::Several(_, _, links) => links.others.get(slot_of(queue, d)),
        }
    }

    /// Gives the node this link in the chain d, which it is in, or takes it out of the chain and its row out of the queue.
    pub(crate) fn set(&mut self, d: usize, link: Option<Link>)
        requires chain { d < 32 }
        requires stands { is_some (slice_index_or self.old.links d None) ≡ true }
        ensures { self.new ≡ record self.old { links = slice_set self.old.links d link; mask = mask_after d (is_some link) self.old.mask } }
    {
        let queue = self.parts.queue_seat().queue as usize;
        if d == queue {
            self.parts.set_in_queue(link);
        } else if let HeadParts::Several(_, _, links) = &mut self.parts {
            links.set_other(queue, d, link);
        }
    }
}

/// The mask of a row that stays in queue d, or leaves it.
fn mask_after(mask: u32, d: usize, stays: bool) -> u32
    requires { d < 32 }
    ensures { result ≡ mask_after d stays mask }
{
    if stays || !stands(mask, d) {
        return mask;
    }
    mask - (1 << d)
}

/// Whether a row with this mask is in no chain from d on. It exists for speed: a row is in few chains.
pub(crate) fn none_from(mask: u32, d: usize) -> bool
    requires { d < 32 }
    ensures { IsTrue result → (e : ℕ) → d ≤ e → stands e mask ≡ false }
{
    mask >> d == 0
}

/// Whether a row with this mask is in the chain d.
pub(crate) fn stands(mask: u32, d: usize) -> bool
    requires { d < 32 }
    ensures { result ≡ stands d mask }
{
    mask >> d & 1 == 1
}

/// The slot of queue d among those of all queues but one.
fn slot_of(queue: usize, d: usize) -> usize
    requires other { d ≢ queue }
    requires queues { (d < 32) × (queue < 32) }
    ensures slot { result ≡ slot_of queue d }
    ensures within { result < 31 }
{
    if d < queue { d } else { d - 1 }
}

/// A link as it is kept.
fn packed(link: Option<Link>) -> (LinkKind, Neighbours)
    ensures { link_of result.0 result.1 ≡ link }
{
    let nowhere = Place::nowhere();
    let Some(Link { prev, next }) = link else {
        return (
            LinkKind::Absent,
            Neighbours {
                prev: nowhere,
                next: nowhere,
            },
        );
    };
    let seat = match (prev, next) {
        (None, None) => LinkKind::Alone,
        (None, Some(_)) => LinkKind::First,
        (Some(_), Some(_)) => LinkKind::Middle,
        (Some(_), None) => LinkKind::Last,
    };
    let ends = Neighbours {
        prev: prev.unwrap_or(nowhere),
        next: next.unwrap_or(nowhere),
    };
    (seat, ends)
}

/// The link that is kept so.
fn unpacked(seat: LinkKind, ends: Neighbours) -> Option<Link>
    ensures { result ≡ link_of seat ends }
{
    match seat {
        LinkKind::Absent => None,
        LinkKind::Alone => Some(Link {
            prev: None,
            next: None,
        }),
        LinkKind::First => Some(Link {
            prev: None,
            next: Some(ends.next),
        }),
        LinkKind::Middle => Some(Link {
            prev: Some(ends.prev),
            next: Some(ends.next),
        }),
        LinkKind::Last => Some(Link {
            prev: Some(ends.prev),
            next: None,
        }),
    }
}
