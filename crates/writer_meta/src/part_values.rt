//! The members of a component, found in one pass.
ghost use Rattle.std.specs.Prelude.{◌≡◌, None, Some, IfOk, IfErr, IfSome, is_some};
ghost use Rattle.serde_json.specs.View.{view, members_view};
ghost use Rattle.writer_meta.specs.Document.{unknown_in, is_known, component_members, rows_in, rows_with, rows_seen};

use serde_json::{Map, Value};

/// The values of a component's members, where it has them.
#[derive(Clone, Copy)]
pub(crate) struct PartValues<'v> {
    pub kind: Option<&'v Value>,
    pub path: Option<&'v Value>,
    pub name: Option<&'v Value>,
    pub selectable: Option<&'v Value>,
}

impl<'v> PartValues<'v> {
    /// The values with those of one member more; none where no component has such a member.
    #[tactic(auto, using(crate::proofs::Lists::not_known))]
    fn with(self, name: &str, value: &'v Value) -> Option<PartValues<'v>>
        ensures known { is_some result ≡ is_known component_members name.now }
        ensures more { IfSome result (λ more. rows_seen more
            ≡ rows_with (rows_seen self.entry) name.now (view value.entry.now)) }
    {
        let mut more = self;
        if name == "name" {
            more.name = self.name.or(Some(value));
            return Some(more);
        }
        if name == "path" {
            more.path = self.path.or(Some(value));
            return Some(more);
        }
        if name == "selectable" {
            more.selectable = self.selectable.or(Some(value));
            return Some(more);
        }
        if name == "type" {
            more.kind = self.kind.or(Some(value));
            return Some(more);
        }
        None
    }

    /// The values of these members, or the least name that no member of a component has.
    #[tactic(auto, unfolding(crate::specs::Document::unknown_in))]
    pub(crate) fn of(members: &'v Map<String, Value>) -> Result<PartValues<'v>, &'v str>
        ensures values { IfOk result (λ values.
            rows_seen values ≡ rows_in (members_view members.now.entries)) }
        ensures known { IfOk result (λ values.
            unknown_in (is_known component_members) (members_view members.now.entries) ≡ None) }
        ensures unknown { IfErr result (λ name.
            unknown_in (is_known component_members) (members_view members.now.entries) ≡ Some name.now) }
    {
        let mut values = PartValues {
            kind: None,
            path: None,
            name: None,
            selectable: None,
        };
        for (name, value) in members.iter() {
            let Some(more) = values.with(name.as_str(), value) else {
                return Err(name.as_str());
            };
            values = more;
        }
        Ok(values)
    }
}
