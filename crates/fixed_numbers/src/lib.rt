//! The numbers that are fixed: those of HL7 v2.5.1 chapter 2 and of MLLP Release 1, and the limits of this engine.
//! Each is declared here once, with a law that says which number it is; the definitions of every other crate write
//! the number out.
#![tactic(auto)]

mod book;
mod framing;
mod message;
mod plan;
mod serving;

pub use book::{
    CHANNELS, DEPLOYMENTS_MAX, DESTINATIONS, EVENTS_MAX, PLACES_MAX, PRUNINGS_MAX, QUEUES,
    book_numbers,
};
pub use framing::{DATA_MAX, END_BLOCK, START_BLOCK, framing_numbers};
pub use message::{
    CARRIAGE_RETURN, CONTROL_ID_FIELD, CONTROL_ID_MAX, HEXADECIMAL, LAST_MOMENT, LINE_FEED,
    MAX_SEGMENTS, PATH_NUMBER_MAX, QUOTATION_MARK, message_numbers,
};
pub use plan::{
    ATTEMPTS_MAX, CHANNELS_MAX, DESTINATIONS_MAX, LEVELS_MAX, MEMBERS_MAX, PAIRS_MAX, plan_numbers,
};
pub use serving::{
    CONNECTIONS_MAX, FRAME_EVENTS_MAX, MAX_ANSWERS, RECEIVES_MAX, TURNS_MAX, serving_numbers,
};
