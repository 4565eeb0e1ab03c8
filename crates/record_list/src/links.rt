//! Nodes that are in up to 32 chains, one for each queue.
ghost use Rattle.std.specs.Prelude.{min, ◌-◌, ◌^◌, ◌≡◌, ◌≢◌, ◌<◌, ◌≤◌, ◌+◌, ℕ, [], ◌∷◌, ◌++◌, All, length, remove, slice_index_or, true, false, IsTrue, IfOk, IfSome, IfNone, MatchOption, MatchResult, replicate, if◌then◌else◌};
ghost use Rattle.std.specs.List.{HoldsAt};
ghost use Rattle.std.specs.Option.{is_some};
ghost use Rattle.record_list.specs.inner.Stands.{stands};
ghost use Rattle.std.specs.Borrow.{sem, Lends};
ghost use Rattle.std.specs.declared.option.Option.TheVariants.{None, Some};
ghost use Rattle.record_list.specs.inner.Held.{IsHeld, index_in, find_node};

use crate::row_head::{Link, Place, QueueLinks, RowHead, none_from, stands};
use std::alloc::{AllocError, AllocFailed, Global};
use std::collections::VecDeque;

/// One row, with its link in each chain that it is in.
#[derive(Drop)]
pub struct Node<T> {
    pub(crate) head: RowHead,
    pub(crate) item: T,
}

/// A row takes 16 bytes beside its item, and one of several queues 308 with the block of its links there.
const _: () = prove!(size_of::<Node<u64>>() == size_of::<u64>() + 16);

const _: () = prove!(size_of::<Node<u64>>() + size_of::<QueueLinks>() == size_of::<u64>() + 308);

/// For how many rows room is kept, whether they are there or not.
const ROOM_KEPT: usize = 1024;

/// The nodes in the order of their numbers, and the ends of the chains. The nodes lie side by side, for speed and memory:
/// a row costs no request for memory of its own, and its number tells where it stands. Where a node is taken out, those
/// before it move up, or those behind it, whichever are fewer.
#[derive(Drop)]
pub struct Links<T> {
    pub(crate) nodes: VecDeque<Node<T>>,
    pub(crate) heads: [Option<Place>; 32],
    pub(crate) tails: [Option<Place>; 32],
    pub(crate) visits: u64,
}

impl<T> Links<T> {
    ghost use Rattle.record_list.specs.inner.Chain.{change_at, with_next, with_prev, end_after, members, items_at, link_at, change_node, without_link};
    ghost use Rattle.record_list.specs.inner.Linked.{IsLinked, BrokenAt, LacksTail, IsSameChain, tail_at};
    ghost use Rattle.record_list.specs.inner.Stands.{NodesRise, new_link};
    ghost use Rattle.record_list.specs.inner.Visit.{lends_visit};

    /// No node yet.
    pub(crate) fn new(alloc: Global) -> Links<T>
        ensures nodes { result.nodes.items ≡ [] }
        ensures ends { (result.heads ≡ replicate 32 None) × (result.tails ≡ replicate 32 None) }
        ensures visits { result.visits ≡ 0 }
    {
        Links {
            nodes: VecDeque::new(alloc),
            heads: [None; 32],
            tails: [None; 32],
            visits: 0,
        }
    }

    /// Where the node of a number stands. For speed it is tried first where it stands if all rows between the first and
    /// it are there, as they are where rows leave in their order; and it is inlined, which saves some 80 instructions a
    /// message by an estimate.
    #[inline(always)]
    pub(crate) fn index_of(&self, number: u32) -> Option<usize>
        requires { NodesRise self.now.nodes.items }
        ensures within { IfSome result (λ index. index < length self.now.nodes.items) }
        ensures found { IfSome result (λ index. IsHeld number self.now.nodes.items × (index ≡ index_in number self.now.nodes.items)) }
        ensures missing { IfNone result (find_node number self.now.nodes.items ≡ None) }
    {
        let first = self.nodes.front()?.head.number();
        let behind_first = number.checked_sub(first)? as usize;
        if self.stands_at(number, behind_first) {
            return Some(behind_first);
        }
        self.index_from_last(number)
    }

    /// Where the node of a number stands. For speed it is tried first where it stands if all rows between it and the last
    /// are there, as they are where rows leave in their order but for older ones that stay, and searched only after that.
    #[inline(never)]
    fn index_from_last(&self, number: u32) -> Option<usize>
        requires { NodesRise self.now.nodes.items }
        ensures within { IfSome result (λ index. index < length self.now.nodes.items) }
        ensures found { IfSome result (λ index. IsHeld number self.now.nodes.items × (index ≡ index_in number self.now.nodes.items)) }
        ensures missing { IfNone result (find_node number self.now.nodes.items ≡ None) }
    {
        let last = self.nodes.back()?.head.number();
        let before_last = last.checked_sub(number)? as usize;
        match self.nodes.len().checked_sub(before_last + 1) {
            Some(index) if self.stands_at(number, index) => Some(index),
            _ => self.search(number),
        }
    }

    /// Whether the node of a number stands there.
    fn stands_at(&self, number: u32, index: usize) -> bool
        requires { NodesRise self.now.nodes.items }
        ensures within { IsTrue result → index < length self.now.nodes.items }
        ensures found { IsTrue result → IsHeld number self.now.nodes.items × (index ≡ index_in number self.now.nodes.items) }
    {
        match self.nodes.get(index) {
            Some(node) => node.head.number() == number,
            None => false,
        }
    }

    /// Where the node of a number stands, by a binary search.
    fn search(&self, number: u32) -> Option<usize>
        requires { NodesRise self.now.nodes.items }
        ensures within { IfSome result (λ index. index < length self.now.nodes.items) }
        ensures found { IfSome result (HoldsAt (λ node. node.head.number ≡ number) self.now.nodes.items) }
        ensures missing { IfNone result (All (λ node. node.head.number ≢ number) self.now.nodes.items) }
    {
        self.nodes
            .binary_search_by_key(&number, |node| node.head.number())
            .ok()
    }

    /// The node of a row that a link names. Each node that is read counts, up to the greatest count.
    pub(crate) fn visit(&mut self, at: Place) -> &mut Node<T>
        requires rise { NodesRise self.old.nodes.items }
        requires held { IsHeld at.number self.old.nodes.items }
        ensures* writes_back { sem 𝓛 (lends_visit T.row self.entry at.number (min (self.old.visits + 1) (2 ^ 64 - 1)) result) }
        ensures value { find_node at.number self.old.nodes.items ≡ Some result.now }
        ensures fits { self.old.visits < 2 ^ 64 }
    {
        self.visits = self.visits.saturating_add(1);
        let index = self.index_of(at.number).unwrap();
        &mut self.nodes[index]
    }

    /// `prev` is followed by `next` in the chain d.
    pub(crate) fn point_on(&mut self, d: usize, prev: Option<Place>, next: Option<Place>)
        requires chain { d < 32 }
        requires rise { NodesRise self.old.nodes.items }
        requires held { IfSome prev (λ at. IsHeld at.number self.old.nodes.items) }
        ensures nodes { self.new.nodes.items ≡ change_at prev (with_next d next) self.old.nodes.items }
        ensures heads { self.new.heads ≡ end_after prev d next self.old.heads }
        ensures tails { self.new.tails ≡ self.old.tails }
        ensures visits { self.new.visits ≤ self.old.visits + 1 }
        ensures rises { self.old.visits ≤ self.new.visits }
    {
        match prev {
            Some(at) => {
                let node = self.visit(at);
                if let Some(link) = node.head.get(d) {
                    let link = Link {
                        prev: link.prev,
                        next,
                    };
                    node.head.set(d, Some(link));
                }
            }
            None => self.heads[d] = next,
        }
    }

    /// `next` is preceded by `prev` in the chain d.
    pub(crate) fn point_back(&mut self, d: usize, prev: Option<Place>, next: Option<Place>)
        requires chain { d < 32 }
        requires rise { NodesRise self.old.nodes.items }
        requires held { IfSome next (λ at. IsHeld at.number self.old.nodes.items) }
        ensures nodes { self.new.nodes.items ≡ change_at next (with_prev d prev) self.old.nodes.items }
        ensures heads { self.new.heads ≡ self.old.heads }
        ensures tails { self.new.tails ≡ end_after next d prev self.old.tails }
        ensures visits { self.new.visits ≤ self.old.visits + 1 }
        ensures rises { self.old.visits ≤ self.new.visits }
    {
        match next {
            Some(at) => {
                let node = self.visit(at);
                if let Some(link) = node.head.get(d) {
                    let link = Link {
                        prev,
                        next: link.next,
                    };
                    node.head.set(d, Some(link));
                }
            }
            None => self.tails[d] = prev,
        }
    }

    /// Closes the gap in the chain d.
    pub(crate) fn join(&mut self, d: usize, prev: Option<Place>, next: Option<Place>)
        requires chain { d < 32 }
        requires rise { NodesRise self.old.nodes.items }
        requires gap { BrokenAt d self.old prev next }
        ensures linked { IsLinked d self.new }
        ensures members { members d self.new.nodes.items ≡ members d self.old.nodes.items }
        ensures others { (e : ℕ) → e ≢ d → IsSameChain e self.old self.new }
        ensures items { items_at self.new.nodes.items ≡ items_at self.old.nodes.items }
        ensures visits { self.new.visits ≤ self.old.visits + 2 }
        ensures rises { self.old.visits ≤ self.new.visits }
    {
        self.point_on(d, prev, next);
        self.point_back(d, prev, next);
    }

    /// The chain d ends with the node at `at`, which is in it.
    pub(crate) fn enter(&mut self, d: usize, at: Place)
        requires chain { d < 32 }
        requires rise { NodesRise self.old.nodes.items }
        requires hangs { LacksTail d self.old at.number }
        ensures linked { IsLinked d self.new }
        ensures members { members d self.new.nodes.items ≡ members d self.old.nodes.items }
        ensures others { (e : ℕ) → e ≢ d → IsSameChain e self.old self.new }
        ensures items { items_at self.new.nodes.items ≡ items_at self.old.nodes.items }
        ensures visits { self.new.visits ≤ self.old.visits + 1 }
        ensures rises { self.old.visits ≤ self.new.visits }
    {
        let last = self.tails[d];
        self.point_on(d, last, Some(at));
        self.tails[d] = Some(at);
    }

    /// What a node has beside its item that will be the last row's. An error means that memory is refused.
    pub(crate) fn last_head(
        &self,
        alloc: Global,
        number: u32,
        mask: u32,
    ) -> Result<RowHead, AllocError>
        ensures row { IfOk result (λ head. (head.number ≡ number) × (head.mask ≡ mask)) }
        ensures links { IfOk result (λ head. (d : ℕ) → d < 32 → slice_index_or head.links d None ≡ new_link (stands d mask) (tail_at d self.now)) }
    {
        let mut head = RowHead::for_queues(alloc, number, mask)?;
        for d in 0..32 {
            if none_from(mask, d) {
                return Ok(head);
            }
            if stands(mask, d) {
                let link = Link {
                    prev: self.tails[d],
                    next: None,
                };
                head.set(d, Some(link));
            }
        }
        Ok(head)
    }

    /// The last row's node, at `at`, is linked into each of its chains.
    pub(crate) fn enter_all(&mut self, at: Place, mask: u32)
        requires rise { NodesRise self.old.nodes.items }
        requires hangs { (d : ℕ) → d < 32 → stands d mask ≡ true → LacksTail d self.old at.number }
        requires linked { (d : ℕ) → d < 32 → stands d mask ≡ false → IsLinked d self.old }
        ensures linked { (d : ℕ) → d < 32 → IsLinked d self.new }
        ensures members { (d : ℕ) → d < 32 → members d self.new.nodes.items ≡ members d self.old.nodes.items }
        ensures items { items_at self.new.nodes.items ≡ items_at self.old.nodes.items }
        ensures visits { self.new.visits ≤ self.old.visits + 32 }
        ensures rises { self.old.visits ≤ self.new.visits }
    {
        for d in 0..32 {
            if none_from(mask, d) {
                return;
            }
            if stands(mask, d) {
                self.enter(d, at);
            }
        }
    }

    /// Takes the node out of the chain d, if it is there, and returns whether it was.
    pub(crate) fn leave(&mut self, d: u32, at: Place) -> bool
        requires chain { d < 32 }
        requires rise { NodesRise self.old.nodes.items }
        requires linked { IsLinked d self.old }
        requires held { IsHeld at.number self.old.nodes.items }
        ensures stood { MatchOption (find_node at.number self.old.nodes.items) ⊥ (λ n. result ≡ is_some (link_at d n)) }
        ensures items { items_at self.new.nodes.items
            ≡ (if result then items_at (change_node at.number (without_link d) self.old.nodes.items) else items_at self.old.nodes.items) }
        ensures linked { IsLinked d self.new }
        ensures others { (e : ℕ) → e ≢ d → IsSameChain e self.old self.new }
        ensures visits { self.new.visits ≤ self.old.visits + 3 }
        ensures rises { self.old.visits ≤ self.new.visits }
    {
        let node = self.visit(at);
        let Some(link) = node.head.get(d as usize) else {
            return false;
        };
        node.head.set(d as usize, None);
        self.join(d as usize, link.prev, link.next);
        true
    }
}

impl<T: Drop> Links<T> {
    ghost use Rattle.record_list.specs.inner.Chain.{items_at};
    ghost use Rattle.record_list.specs.inner.Linked.{IsLinked, IsOpen};
    ghost use Rattle.record_list.specs.inner.Stands.{NodesRise, IsWhole};

    /// Adds a node at the end, and returns it where memory is refused.
    pub(crate) fn add(&mut self, node: Node<T>) -> Result<(), Node<T>>
        ensures added { MatchResult result (λ _. self.new.nodes.items ≡ self.old.nodes.items ++ node ∷ [])
            (λ back. (back ≡ node) × (self.new.nodes.items ≡ self.old.nodes.items)) }
        ensures rest { (self.new.heads ≡ self.old.heads) × (self.new.tails ≡ self.old.tails) × (self.new.visits ≡ self.old.visits) }
    {
        match self.nodes.push_back(node) {
            Ok(()) => Ok(()),
            Err(AllocFailed { value }) => Err(value),
        }
    }

    /// Takes a node out of each chain that it is in, and out of the list.
    pub(crate) fn take_out(&mut self, index: usize) -> Node<T>
        requires whole { IsWhole self.old }
        requires within { index < length self.old.nodes.items }
        ensures value { result ≡ slice_index_or self.old.nodes.items index result }
        ensures whole { IsWhole self.new }
        ensures items { items_at self.new.nodes.items ≡ items_at (remove self.old.nodes.items index) }
        ensures visits { self.new.visits ≤ self.old.visits + 65 }
        ensures rises { self.old.visits ≤ self.new.visits }
    {
        self.visits = self.visits.saturating_add(1);
        let node = self.nodes.remove(index).unwrap();
        self.give_back();
        self.join_all(&node.head);
        node
    }

    /// Gives half of the list's memory back where three quarters of it are free. It exists for memory: what many rows took
    /// that are gone is not held for ever.
    fn give_back(&mut self)
        ensures nodes { self.new.nodes.items ≡ self.old.nodes.items }
        ensures rest { (self.new.heads ≡ self.old.heads) × (self.new.tails ≡ self.old.tails) × (self.new.visits ≡ self.old.visits) }
    {
        let room = self.nodes.capacity();
        if room > ROOM_KEPT && self.nodes.len() < room / 4 {
            self.nodes.shrink_to(room / 2);
        }
    }

    /// Closes the gaps that a node left.
    fn join_all(&mut self, gone: &RowHead)
        requires rise { NodesRise self.old.nodes.items }
        requires gaps { (d : ℕ) → d < 32 → IsOpen d self.old (slice_index_or gone.now.links d None) }
        ensures linked { (d : ℕ) → d < 32 → IsLinked d self.new }
        ensures items { items_at self.new.nodes.items ≡ items_at self.old.nodes.items }
        ensures visits { self.new.visits ≤ self.old.visits + 64 }
        ensures rises { self.old.visits ≤ self.new.visits }
    {
        for d in 0..32 {
            if let Some(link) = gone.get(d) {
                self.join(d, link.prev, link.next);
            }
        }
    }
}
