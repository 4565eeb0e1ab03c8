ghost use Rattle.std.specs.Prelude.{◌≡◌};
ghost use Rattle.std.specs.Bool.{Decides};
ghost use Rattle.hl7_transform.specs.inner.View.{view, table_view};

use er7_tree::Path;
use hl7_filter::Bytes;

/// Two texts of a lookup table: a value, and its partner.
#[derive(PartialEq, Eq, Drop)]
pub struct Pair {
    pub from: Bytes,
    pub to: Bytes,
}

/// A step that changes a message. Two steps are equal where they have the same form, paths and texts.
#[derive(Drop)]
pub enum Step {
    /// The piece becomes this text, in which delimiters and control characters are escaped.
    Set(Path, Bytes),
    /// The piece at `to` becomes the raw piece at `from`.
    Copy {
        from: Path,
        to: Path,
    },
    /// The piece becomes empty, where it is there.
    Clear(Path),
    /// The piece becomes the partner of its value, else the default.
    Lookup {
        path: Path,
        table: Vec<Pair>,
        default: Option<Bytes>,
    },
    /// All segments of this name go.
    RemoveSegments(Bytes),
}

/// Whether two lookup tables are the same.
fn same_tables(table: &[Pair], other: &[Pair]) -> bool
    ensures { Decides result (table_view table.now ≡ table_view other.now) }
{
    table == other
}

/// Whether two defaults are the same.
fn same_defaults(default: &Option<Bytes>, other: &Option<Bytes>) -> bool
    ensures { Decides result (default.now ≡ other.now) }
{
    default == other
}

impl Step {
    /// Whether two steps are the same.
    fn same(&self, other: &Step) -> bool
        ensures { Decides result (view self.now ≡ view other.now) }
    {
        match (self, other) {
            (Step::Set(path, text), Step::Set(place, bytes)) => path == place && text == bytes,
            (
                Step::Copy { from, to },
                Step::Copy {
                    from: source,
                    to: place,
                },
            ) => from == source && to == place,
            (Step::Clear(path), Step::Clear(place)) => path == place,
            (
                Step::Lookup {
                    path,
                    table,
                    default,
                },
                Step::Lookup {
                    path: place,
                    table: other_table,
                    default: other_default,
                },
            ) => path == place
                && same_tables(table, other_table)
                && same_defaults(default, other_default),
            (Step::RemoveSegments(name), Step::RemoveSegments(bytes)) => name == bytes,
            _ => false,
        }
    }
}

impl PartialEq for Step {
    ghost use Rattle.hl7_transform.specs.inner.View.{same, same_laws};

    ghost eq = { same };

    ghost laws = { same_laws };

    fn eq(&self, other: &Step) -> bool {
        self.same(other)
    }
}

impl Eq for Step {
    ghost use Rattle.hl7_transform.specs.inner.View.{same_equiv};

    ghost laws = { same_equiv };
}
