//! Tests of a shared book: its calls, its refusals, plans that are deployed, messages that are forgotten, its close, the audit
//! of its receipts, and two threads at it; and of serving a connection, at a desk and over devices that fail.
#![tactic(auto)]

#[cfg(test)]
mod audits;
#[cfg(test)]
mod calls;
#[cfg(test)]
mod changes;
#[cfg(test)]
mod crowding;
#[cfg(test)]
mod deploys;
#[cfg(test)]
mod devices;
#[cfg(test)]
mod handed_back;
#[cfg(test)]
mod judging;
#[cfg(test)]
mod prunings;
#[cfg(test)]
mod refusals;
#[cfg(test)]
mod refused_calls;
#[cfg(test)]
mod refused_serving;
#[cfg(test)]
mod serving;
#[cfg(test)]
mod stage;
#[cfg(test)]
mod threads;
#[cfg(test)]
mod tidying;
