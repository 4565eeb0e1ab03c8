//! What is said of each key of a plan: what it is for, which values it may have, and an example.

use crate::tables::TableKind;

/// What is said of a key.
#[derive(Clone, Copy)]
pub(crate) struct KeyWords {
    /// What the key is for.
    pub(crate) purpose: &'static str,
    /// The kind, the range and the form of the values that it may have.
    pub(crate) wanted: &'static str,
    /// A line of a plan that has it.
    pub(crate) example: &'static str,
}

/// What is said of a name.
const NAME: &str = "a text of 1 to 32 letters A to Z and a to z, digits, _ and -";

/// What is said of a filter.
const FILTER: KeyWords = KeyWords {
    purpose: "the condition of the messages that go on",
    wanted: "a table with one condition",
    example: "filter = { equals = [\"PV1-2\", \"I\"] }",
};

/// What is said of steps.
const STEPS: KeyWords = KeyWords {
    purpose: "the changes to a message, in their order",
    wanted: "a list of at most 256 tables, each with one step",
    example: "steps = [{ clear = \"PID-19\" }]",
};

/// What is said of a key of the document.
fn document_key(key: &str) -> Option<KeyWords> {
    let words = match key {
        "destination" => KeyWords {
            purpose: "the peers that messages go to",
            wanted: "a list of 0 to 32 tables (destination = [] where there is none)",
            example: "[[destination]]",
        },
        "channel" => KeyWords {
            purpose: "the listeners that messages come in on",
            wanted: "a list of 1 to 64 tables",
            example: "[[channel]]",
        },
        _ => return None,
    };
    Some(words)
}

/// What is said of a key of a destination.
fn destination_key(key: &str) -> Option<KeyWords> {
    let words = match key {
        "name" => KeyWords {
            purpose: "what routes and the counts call the destination",
            wanted: NAME,
            example: "name = \"LAB\"",
        },
        "address" => KeyWords {
            purpose: "where to connect to the destination",
            wanted: "a text HOST:PORT of 1 to 255 bytes",
            example: "address = \"127.0.0.1:6661\"",
        },
        "attempts" => KeyWords {
            purpose: "how often a message is sent at most",
            wanted: "a whole number from 1 to 100",
            example: "attempts = 3",
        },
        "interval" => KeyWords {
            purpose: "the seconds from a failed attempt to the next",
            wanted: "a whole number from 0 to 86400",
            example: "interval = 10",
        },
        "timeout" => KeyWords {
            purpose: "the seconds that connecting, a write or a read may take",
            wanted: "a whole number from 1 to 3600",
            example: "timeout = 30",
        },
        "await" => KeyWords {
            purpose: "what ends a delivery",
            wanted: "the text \"ack\" (its acknowledgment) or \"none\" (that it was written)",
            example: "await = \"ack\"",
        },
        _ => return None,
    };
    Some(words)
}

/// What is said of a key of a channel.
fn channel_key(key: &str) -> Option<KeyWords> {
    let words = match key {
        "name" => KeyWords {
            purpose: "what the log and the counts call the channel",
            wanted: NAME,
            example: "name = \"ADT\"",
        },
        "listen" => KeyWords {
            purpose: "the address at which the channel takes connections",
            wanted: "a text HOST:PORT of 1 to 255 bytes",
            example: "listen = \"127.0.0.1:6660\"",
        },
        "types" => KeyWords {
            purpose: "the message types (MSH-9) that the channel takes",
            wanted: "a list of at most 256 texts: CODE, CODE^EVENT, or * for every type",
            example: "types = [\"ADT^A01\", \"ORU\"]",
        },
        "processing" => KeyWords {
            purpose: "the processing ids (MSH-11) that the channel takes",
            wanted: "a list of at most 256 texts: P, T or D",
            example: "processing = [\"P\", \"T\"]",
        },
        "versions" => KeyWords {
            purpose: "the versions (MSH-12) that the channel takes",
            wanted: "a list of at most 256 texts of 1 to 16 bytes, * for any version",
            example: "versions = [\"2.5.1\"]",
        },
        "filter" => FILTER,
        "steps" => STEPS,
        "route" => KeyWords {
            purpose: "where the channel's messages go",
            wanted: "a list of tables",
            example: "[[channel.route]]",
        },
        _ => return None,
    };
    Some(words)
}

/// What is said of a key of a route.
fn route_key(key: &str) -> Option<KeyWords> {
    match key {
        "to" => Some(KeyWords {
            purpose: "the name of the destination that the route leads to",
            wanted: "a text, the name of a destination",
            example: "to = \"LAB\"",
        }),
        "filter" => Some(FILTER),
        "steps" => Some(STEPS),
        _ => None,
    }
}

/// What is said of a key of a condition on one piece.
fn piece_condition_key(key: &str) -> Option<KeyWords> {
    let words = match key {
        "equals" => KeyWords {
            purpose: "true where the piece is the text",
            wanted: "a list of a path and a text",
            example: "equals = [\"PV1-2\", \"I\"]",
        },
        "one_of" => KeyWords {
            purpose: "true where the piece is one of the texts",
            wanted: "a list of a path and a list of at most 256 texts",
            example: "one_of = [\"PV1-2\", [\"I\", \"E\"]]",
        },
        "exists" => KeyWords {
            purpose: "true where the piece is neither empty nor null",
            wanted: "a text, the path to a piece",
            example: "exists = \"PID-3.1\"",
        },
        "starts" => KeyWords {
            purpose: "true where the piece begins with the text",
            wanted: "a list of a path and a text",
            example: "starts = [\"PID-3.1\", \"77\"]",
        },
        "contains" => KeyWords {
            purpose: "true where the text is in the piece",
            wanted: "a list of a path and a text",
            example: "contains = [\"OBX-5\", \"positive\"]",
        },
        _ => return None,
    };
    Some(words)
}

/// What is said of a key of a condition that is made of conditions.
fn joined_condition_key(key: &str) -> Option<KeyWords> {
    let words = match key {
        "all" => KeyWords {
            purpose: "true where each condition is",
            wanted: "a list of at most 256 conditions",
            example: "all = [{ exists = \"PID-3.1\" }]",
        },
        "any" => KeyWords {
            purpose: "true where one condition is",
            wanted: "a list of at most 256 conditions",
            example: "any = [{ exists = \"PID-3.1\" }]",
        },
        "not" => KeyWords {
            purpose: "true where the condition is not",
            wanted: "a table with one condition",
            example: "not = { exists = \"PID-30\" }",
        },
        _ => return None,
    };
    Some(words)
}

/// What is said of a key of a step that says what the step does.
fn first_step_key(key: &str) -> Option<KeyWords> {
    let words = match key {
        "set" => KeyWords {
            purpose: "writes a text into a piece",
            wanted: "a list of a path and a text",
            example: "set = [\"PV1-2\", \"I\"]",
        },
        "copy" => KeyWords {
            purpose: "copies the piece at the first path to the second",
            wanted: "a list of two paths",
            example: "copy = [\"PID-3.1\", \"PID-2.1\"]",
        },
        "clear" => KeyWords {
            purpose: "empties a piece",
            wanted: "a text, the path to a piece",
            example: "clear = \"PID-19\"",
        },
        "lookup" => KeyWords {
            purpose: "replaces a piece by its partner in the table",
            wanted: "a text, the path to a piece",
            example: "lookup = \"PID-8\"",
        },
        "remove" => KeyWords {
            purpose: "removes all segments of a name",
            wanted: "a text, the name of a segment",
            example: "remove = \"ZPD\"",
        },
        _ => return None,
    };
    Some(words)
}

/// What is said of a key that a step has beside `lookup` alone.
fn lookup_key(key: &str) -> Option<KeyWords> {
    let words = match key {
        "table" => KeyWords {
            purpose: "the pairs of a lookup",
            wanted: "a list of at most 1000 lists of two texts",
            example: "table = [[\"1\", \"M\"], [\"2\", \"F\"]]",
        },
        "default" => KeyWords {
            purpose: "what a lookup writes where its table has no such text",
            wanted: "a text",
            example: "default = \"U\"",
        },
        _ => return None,
    };
    Some(words)
}

/// What is said of a key of a table; none of a key that such a table doesn't have.
pub(crate) fn key_words(kind: TableKind, key: &str) -> Option<KeyWords> {
    match kind {
        TableKind::Document => document_key(key),
        TableKind::Destination => destination_key(key),
        TableKind::Channel => channel_key(key),
        TableKind::Route => route_key(key),
        TableKind::Condition => piece_condition_key(key).or(joined_condition_key(key)),
        TableKind::Step => first_step_key(key).or(lookup_key(key)),
    }
}

/// What a member of the list at a key has to be, and an example; none where it has no list.
pub(crate) fn member_words(kind: TableKind, key: &str) -> Option<(&'static str, &'static str)> {
    match (kind, key) {
        (TableKind::Channel, "types") => Some((
            "a text: CODE, CODE^EVENT or *; each of 1 to 16 of A to Z and 0 to 9",
            "\"ADT^A01\"",
        )),
        (TableKind::Channel, "processing") => Some(("the text P, T or D", "\"P\"")),
        (TableKind::Channel, "versions") => Some(("a text of 1 to 16 bytes", "\"2.5.1\"")),
        (TableKind::Step, "table") => Some(("a list of two texts", "[\"1\", \"M\"]")),
        (TableKind::Document, "destination") => Some(("a table", "[[destination]]")),
        (TableKind::Document, "channel") => Some(("a table", "[[channel]]")),
        (TableKind::Channel, "route") => Some(("a table", "[[channel.route]]")),
        (TableKind::Channel | TableKind::Route, "steps") => {
            Some(("a table with one step", "{ clear = \"PID-19\" }"))
        }
        (TableKind::Condition, "all" | "any") => {
            Some(("a table with one condition", "{ exists = \"PID-3.1\" }"))
        }
        _ => None,
    }
}

/// What the list of tables at a key has to be, in place of one table; none where the key holds no such list.
pub(crate) fn list_words(kind: TableKind, key: &str) -> Option<&'static str> {
    match (kind, key) {
        (TableKind::Document, "destination") => {
            Some("a list of tables, each written [[destination]]")
        }
        (TableKind::Document, "channel") => Some("a list of tables, each written [[channel]]"),
        (TableKind::Channel, "route") => Some("a list of tables, each written [[channel.route]]"),
        (TableKind::Channel | TableKind::Route, "steps") => {
            Some("a list of steps, as [{ clear = \"PID-19\" }]")
        }
        (TableKind::Condition, "all" | "any") => {
            Some("a list of conditions, as [{ exists = \"PID-3.1\" }]")
        }
        _ => None,
    }
}
