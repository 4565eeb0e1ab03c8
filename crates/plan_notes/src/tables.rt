//! The tables of a plan: which keys each has, and which tables a key holds.

/// The kinds of tables that a plan is made of.
#[derive(Clone, Copy, Debug, PartialEq, Eq)]
pub(crate) enum TableKind {
    /// The whole document.
    Document,
    /// A member of `destination`.
    Destination,
    /// A member of `channel`.
    Channel,
    /// A member of a channel's `route`.
    Route,
    /// A filter, or a condition inside one.
    Condition,
    /// A member of `steps`.
    Step,
}

impl TableKind {
    /// The kind in words, with its article.
    pub(crate) fn words(self) -> &'static str {
        match self {
            TableKind::Document => "a plan",
            TableKind::Destination => "a destination",
            TableKind::Channel => "a channel",
            TableKind::Route => "a route",
            TableKind::Condition => "a condition",
            TableKind::Step => "a step",
        }
    }

    /// The keys that a table of this kind may have, in the order of docs/RULES.md.
    pub(crate) fn keys(self) -> &'static [&'static str] {
        match self {
            TableKind::Document => &["destination", "channel"],
            TableKind::Destination => &[
                "name", "address", "attempts", "interval", "timeout", "await",
            ],
            TableKind::Channel => &[
                "name",
                "listen",
                "types",
                "processing",
                "versions",
                "filter",
                "steps",
                "route",
            ],
            TableKind::Route => &["to", "filter", "steps"],
            TableKind::Condition => &[
                "equals", "one_of", "exists", "starts", "contains", "all", "any", "not",
            ],
            TableKind::Step => &[
                "set", "copy", "clear", "lookup", "remove", "table", "default",
            ],
        }
    }

    /// Whether a table of this kind may have the key.
    pub(crate) fn has_key(self, key: &str) -> bool {
        self.keys().iter().any(|known| *known == key)
    }

    /// The kind of the table, or of the tables of the list, at a key of a table of this kind; none where it holds no
    /// table.
    pub(crate) fn inner(self, key: &str) -> Option<TableKind> {
        match (self, key) {
            (TableKind::Document, "destination") => Some(TableKind::Destination),
            (TableKind::Document, "channel") => Some(TableKind::Channel),
            (TableKind::Channel, "route") => Some(TableKind::Route),
            (TableKind::Channel | TableKind::Route, "filter") => Some(TableKind::Condition),
            (TableKind::Channel | TableKind::Route, "steps") => Some(TableKind::Step),
            (TableKind::Condition, "all" | "any" | "not") => Some(TableKind::Condition),
            _ => None,
        }
    }
}
