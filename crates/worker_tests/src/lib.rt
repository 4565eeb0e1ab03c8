//! Tests of the workers: of a connection whose stream comes in odd pieces or holds framing bytes alone, or whose writer takes
//! nothing; and of a running engine, whose doors, connections and links wait for one another.
#![tactic(auto)]

#[cfg(test)]
mod crowd;
#[cfg(test)]
mod cuts;
#[cfg(test)]
mod framing_bytes;
#[cfg(test)]
mod held;
#[cfg(test)]
mod loopback;
#[cfg(test)]
mod many;
#[cfg(test)]
mod prefixes;
#[cfg(test)]
mod runs;
#[cfg(test)]
mod stage;
#[cfg(test)]
mod writers;
