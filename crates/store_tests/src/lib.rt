//! Tests of what keeps a book across a stop of its process: a journal over a store, the recovery of what it wrote, the
//! replay of records, the encoding and the maps of an opening, a book that goes on from one, and the file of the records.
#![tactic(auto)]

#[cfg(test)]
mod encodings;
#[cfg(test)]
mod files;
#[cfg(test)]
mod journals;
#[cfg(test)]
mod maps;
#[cfg(test)]
mod openings;
#[cfg(test)]
mod recoveries;
#[cfg(test)]
mod replays;
#[cfg(test)]
mod resumes;
#[cfg(test)]
mod stage;
