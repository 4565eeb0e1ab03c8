//! Reading a plan from the data of a TOML document.

pub(crate) mod channels;
pub(crate) mod conditions;
pub(crate) mod destinations;
pub(crate) mod document;
pub(crate) mod keys;
pub(crate) mod kinds;
pub(crate) mod members;
pub(crate) mod names;
pub(crate) mod steps;
