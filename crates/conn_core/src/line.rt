//! A connection over which messages arrive.

use std::alloc::Global;

/// A connection: its number, and its channel by its index in the plan. Memory for its messages comes from `alloc`.
#[derive(Clone, Copy)]
pub struct ConnectionId {
    pub alloc: Global,
    pub conn: u32,
    pub channel: u32,
}
