//! Members that the format does not have.
ghost use Rattle.std.specs.Prelude.{◌≡◌, option_map};
ghost use Rattle.serde_json.specs.View.{members_view};
ghost use Rattle.writer_meta.specs.Document.{unknown_in, is_known, document_members};

use serde_json::{Map, Value};

const DOCUMENT_MEMBERS: [&str; 7] = [
    "class",
    "components",
    "freeze_timeout",
    "level",
    "name",
    "source",
    "usage",
];

/// The least name of a member of a document that the format does not have.
#[tactic(auto, unfolding(crate::specs::Document::unknown_in))]
pub(crate) fn unknown_of_document(members: &Map<String, Value>) -> Option<&str>
    ensures { option_map (λ name. name.now) result
        ≡ unknown_in (is_known document_members) (members_view members.now.entries) }
{
    for (name, _value) in members.iter() {
        if !DOCUMENT_MEMBERS.contains(&name.as_str()) {
            return Some(name.as_str());
        }
    }
    None
}
