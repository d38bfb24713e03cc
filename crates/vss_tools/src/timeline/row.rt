use crate::timeline::row_kind::RowKind;

/// A row of the picture.
#[derive(Clone, Copy)]
pub struct Row<'a> {
    pub kind: RowKind,
    /// Its name; empty where there is one of its kind.
    pub name: &'a str,
}

impl Row<'_> {
    ghost use Rattle.std.specs.Prelude.{◌≡◌, []};
    ghost use Rattle.vss_tools.specs.Lines.{named_of};
    ghost use Rattle.vss_tools.specs.declared.timeline.row_kind.RowKind.TheVariants.{Provider, Time};

    /// The row of the time.
    pub fn time() -> Row<'static>
        ensures { named_of result ≡ (Time, []) }
    {
        Row {
            kind: RowKind::Time,
            name: "",
        }
    }

    /// The provider's row.
    pub fn provider() -> Row<'static>
        ensures { named_of result ≡ (Provider, []) }
    {
        Row {
            kind: RowKind::Provider,
            name: "",
        }
    }
}
