ghost use Rattle.std.specs.Prelude.{◌≡◌, ◌≤◌, length, IsTrue};
ghost use Rattle.std.specs.List.{list_all};
ghost use Rattle.vss_names.specs.Names.{is_name_byte, is_name};

use crate::limits::MOST_NAME;

fn is_name_byte(byte: u8) -> bool
    ensures { result ≡ is_name_byte byte }
{
    byte.is_ascii_alphanumeric() || byte == b'_' || byte == b'-' || byte == b'.'
}

fn are_name_bytes(name: &[u8]) -> bool
    ensures { result ≡ list_all is_name_byte name.now }
{
    name.iter().all(|byte| is_name_byte(*byte))
}

/// Whether these bytes are a name, as scenarios and catalogs have them.
#[tactic(auto, unfolding(crate::specs::Names::is_name))]
pub fn is_name(name: &[u8]) -> bool
    ensures value { result ≡ is_name name.now }
    ensures short { IsTrue result → length name.now ≤ MOST_NAME }
{
    if name.is_empty() || name.len() > MOST_NAME as usize || !name[0].is_ascii_alphabetic() {
        return false;
    }
    are_name_bytes(name)
}
