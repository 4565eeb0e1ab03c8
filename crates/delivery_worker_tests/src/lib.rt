//! Tests of deliveries over links that are played from a script.
#![tactic(auto)]

#[cfg(test)]
mod delivering;
#[cfg(test)]
mod durable;
#[cfg(test)]
mod halting;
#[cfg(test)]
mod lost;
#[cfg(test)]
mod played;
#[cfg(test)]
mod refused_delivering;
#[cfg(test)]
mod stage;
#[cfg(test)]
mod steady;
#[cfg(test)]
mod tcp;
