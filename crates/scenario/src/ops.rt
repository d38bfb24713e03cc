//! The lines of a lane.
ghost use Rattle.std.specs.Prelude.{◌≡◌, false, length, IfOk};
ghost use Rattle.scenario.specs.Words.{reads_or_writes};
ghost use Rattle.scenario.specs.Fields.{AreFields};
ghost use Rattle.scenario.specs.Bounds.{IsRanged};
ghost use Rattle.scenario.specs.Drafts.{IsDraft, by_reason};
ghost use Rattle.scenario.specs.Ops.{write_of, read_of, alone, op_of};

use crate::cause::Cause;
use crate::draft::Draft;
use crate::expected::Expected;
use crate::field_values::{
    block_field, declared_field, is_word, long_field, number_field, word_field,
};
use crate::fields::Fields;
use crate::forms::{by_word, forms, read, shape, value};
use crate::name_kind::NameKind;
use crate::op::Op;
use crate::quantity::Quantity;
use crate::reason::Reason;
use crate::word::Word;

/// What a `write` line says.
#[tactic(auto, unfolding(crate::specs::Ops::write_of))]
pub(crate) fn write_of(text: &[u8], draft: &Draft, fields: Fields) -> Result<Op, Cause>
    requires parts { AreFields (length text.now) fields }
    requires draft { IsDraft text.now draft.now }
    ensures value { by_reason result ≡ write_of text.now draft.now.said.volumes fields }
    ensures ranged { IfOk result (IsRanged (length text.now) draft.now.said.volumes (length draft.now.said.writers)) }
{
    forms!(Write read [fields text draft])
}

/// What a `read` line says.
#[tactic(auto, unfolding(crate::specs::Ops::read_of))]
pub(crate) fn read_of(text: &[u8], draft: &Draft, fields: Fields) -> Result<Op, Cause>
    requires parts { AreFields (length text.now) fields }
    requires draft { IsDraft text.now draft.now }
    ensures value { by_reason result ≡ read_of text.now draft.now.said.volumes fields }
    ensures ranged { IfOk result (IsRanged (length text.now) draft.now.said.volumes (length draft.now.said.writers)) }
{
    forms!(Read read [fields text draft])
}

/// A word alone.
fn alone(op: Op, fields: Fields) -> Result<Op, Cause>
    ensures value { by_reason result ≡ alone op fields }
    ensures same { IfOk result (λ o. o ≡ op) }
{
    if let Fields::Zero = fields {
        return Ok(op);
    }
    Err(Cause::no_form())
}

/// What another line of a lane says, by its first word.
#[tactic(auto, unfolding(crate::specs::Ops::image_of, crate::specs::Ops::volume_alone, crate::specs::Ops::set_and_volume, crate::specs::Ops::delete_of, crate::specs::Ops::tick_of, crate::specs::Ops::begin_of, crate::specs::Ops::component_of, crate::specs::Ops::op_of))]
pub(crate) fn op_of(text: &[u8], draft: &Draft, word: Word, fields: Fields) -> Result<Op, Cause>
    requires parts { AreFields (length text.now) fields }
    requires draft { IsDraft text.now draft.now }
    requires other { reads_or_writes word ≡ false }
    ensures value { by_reason result ≡ op_of text.now draft.now.said.volumes draft.now.said.writers word fields }
    ensures ranged { IfOk result (IsRanged (length text.now) draft.now.said.volumes (length draft.now.said.writers)) }
{
    by_word!(word read [fields text draft] lanes;
        _ => Err(Cause::line(Reason::Misplaced, Expected::NoLane)),
    )
}
