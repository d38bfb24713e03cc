ghost use Rattle.std.specs.Prelude.{◌≡◌, ◌↔◌, ◌==◌, ◌<◌, ◌^◌, [], Ok, length, IfOk, IfErr, OnOk, OnErr, IsTrue};
ghost use Rattle.std.specs.List.{list_any};
ghost use Rattle.std.specs.Str.{bytes_eq};
ghost use Rattle.serde_json.specs.View.{view};
ghost use Rattle.writer_meta.specs.Document.{value_of_text};
ghost use Rattle.component_doc.specs.Over.{Held, metas_of, selected_of};
ghost use Rattle.component_doc.specs.Refusal.{TellsOfText, IsNoValue};

use crate::add_fault::AddFault;
use crate::both::are_both;
use crate::choices::Choices;
use crate::chosen::choose_of_writer;
use crate::doc_fault::DocFault;
use crate::metas::Metas;
use crate::pair::Pair;
use crate::taken::Taken;
use crate::{pairs, reading, written};
use serde_json::Value;
use std::alloc::Global;
use std::marker::Model;
use vss_names::{Context, Numbers, OutOfMemory, Text};

/// The selection of a session: the components that a requestor has named, or all components of the writers that are
/// known. Contracts see over how many writers it is, and what is selected.
#[derive(Debug, Drop)]
pub struct Selection {
    writers: u32,
    taken: Taken,
}

impl Model for Selection {
    ghost Value = { Held };

    ghost view = { λ s. record { writers = s.writers; selected = selected_of s.taken } };

    ghost invariant = { λ s. s.writers < 2 ^ 32 };
}

impl Selection {
    ghost use Rattle.component_doc.specs.Over.{all_have_few, pairs_of, is_named, AreAllowed, IsOver};
    ghost use Rattle.component_doc.specs.Document.{document_text, IsDocumentOf};
    ghost use Rattle.component_doc.specs.Selection.{Named, Names, naming, all_of, takers, chosen};
    ghost use Rattle.component_doc.specs.Refusal.{Tells};

    /// A selection over this many writers in which nothing is named yet.
    pub fn new(alloc: Global, writers: u32) -> Result<Selection, OutOfMemory>
        ensures { result ≡ Ok (record { writers = writers; selected = Named [] }) }
    {
        Ok(Selection {
            writers,
            taken: Taken::Named(Vec::new(alloc)),
        })
    }

    /// A selection of all components of the writers that are known.
    pub fn all(alloc: Global, metas: &Metas) -> Result<Selection, OutOfMemory>
        requires { length metas.now < 2 ^ 32 }
        ensures { IfOk result (λ selection. selection
            ≡ record { writers = length metas.now; selected = all_of (metas_of metas.now) }) }
    {
        Ok(Selection {
            writers: metas.len() as u32,
            taken: Taken::AllOf(metas.known(alloc)?),
        })
    }

    /// Names a component by its writer and its full name.
    pub fn add(
        &mut self,
        alloc: Global,
        metas: &Metas,
        writer: u32,
        path: &[u8],
    ) -> Result<(), AddFault>
        requires few { IsTrue (all_have_few (metas_of metas.now)) }
        requires named { IsTrue (is_named self.old.selected) }
        ensures added { OnOk result (naming (metas_of metas.now) writer path.now (pairs_of self.old.selected)
            ≡ Names (pairs_of self.new.selected)) }
        ensures refused { IfErr result
            (λ fault. Tells fault (naming (metas_of metas.now) writer path.now (pairs_of self.old.selected))) }
        ensures unchanged { OnErr result (self.new ≡ self.old) }
        ensures writers { self.new.writers ≡ self.old.writers }
        ensures named { IsTrue (is_named self.new.selected) }
        ensures over { IsOver (metas_of metas.now) self.old → IsOver (metas_of metas.now) self.new }
    {
        let Some(found) = metas.find(alloc, writer, path)? else {
            return Err(AddFault::NotFound);
        };
        if !found.selectable {
            return Err(AddFault::NotSelectable);
        }
        let pair = Pair {
            writer,
            component: found.component,
        };
        let Taken::Named(named) = &mut self.taken else {
            unreachable!()
        };
        if pairs::has(named, pair) {
            return Err(AddFault::AlreadyExists);
        }
        pairs::insert(named, pair)?;
        Ok(())
    }

    /// Over how many writers it is.
    pub fn writers(&self) -> u32
        ensures { result ≡ self.now.writers }
    {
        self.writers
    }

    /// Whether components are named one by one, as `add` asks.
    pub fn is_named(&self) -> bool
        ensures { result ≡ is_named self.now.selected }
    {
        self.taken.is_named()
    }

    /// Whether it is a selection over these metadata, as `to_json` asks.
    pub fn is_over(&self, alloc: Global, metas: &Metas) -> Result<bool, OutOfMemory>
        requires { length metas.now < 2 ^ 32 }
        ensures { IfOk result (λ is_over. IsTrue is_over ↔ IsOver (metas_of metas.now) self.now) }
    {
        let is_over = self.taken.is_over(alloc, metas)?;
        Ok(are_both(self.writers as usize == metas.len(), is_over))
    }

    /// Whether the writer takes part.
    pub fn takes(&self, writer: u32) -> bool
        ensures { result ≡ list_any (λ w. w == writer) (takers self.now.writers self.now.selected) }
    {
        are_both(writer < self.writers, self.taken.takes(writer))
    }

    /// The writers that take part, in order.
    pub fn participants(&self, alloc: Global) -> Result<Numbers, OutOfMemory>
        ensures { IfOk result (λ writers. writers ≡ takers self.now.writers self.now.selected) }
    {
        let mut writers = Vec::new(alloc);
        for writer in 0..self.writers {
            if self.taken.takes(writer) {
                writers.push(writer)?;
            }
        }
        Ok(Numbers::of(writers))
    }

    /// The components that the backup takes, of all writers.
    pub fn chosen(&self, alloc: Global, metas: &Metas) -> Result<Choices, OutOfMemory>
        requires few { IsTrue (all_have_few (metas_of metas.now)) }
        requires writers { length metas.now ≡ self.now.writers }
        ensures { IfOk result (λ choices. choices ≡ chosen self.now.selected (metas_of metas.now)) }
    {
        let mut choices = Vec::new(alloc);
        for writer in 0..self.writers {
            choose_of_writer(&self.taken, writer, metas.of_writer(writer), &mut choices)?;
        }
        Ok(Choices::of(choices))
    }

    /// The component document: compact JSON that lists the components that the backup takes. `from_json` gives the
    /// context and the selection back.
    pub fn to_json(
        &self,
        alloc: Global,
        metas: &Metas,
        context: Context,
    ) -> Result<Text, OutOfMemory>
        requires allowed { AreAllowed (metas_of metas.now) }
        requires over { IsOver (metas_of metas.now) self.now }
        ensures written { IfOk result
            (λ text. text.bytes ≡ document_text (metas_of metas.now) self.now.selected context) }
        ensures reads_back { IfOk result
            (λ text. IsDocumentOf (metas_of metas.now) text.bytes context self.now) }
    {
        let choices = self.chosen(alloc, metas)?;
        let values = written::values_of(alloc, metas, choices.items())?;
        let value = written::document_of(alloc, values, context, self.taken.is_named())?;
        let text = value.to_vec(alloc)?;
        Ok(Text::of(text))
    }

    /// The context and the selection that a component document over these metadata says.
    pub fn from_json(
        alloc: Global,
        metas: &Metas,
        text: &[u8],
    ) -> Result<(Context, Selection), DocFault>
        requires allowed { AreAllowed (metas_of metas.now) }
        requires writers { length metas.now < 2 ^ 32 }
        ensures ok { IfOk result
            (λ found. IsDocumentOf (metas_of metas.now) text.now found.0 found.1) }
        ensures refused { IfErr result (λ fault. TellsOfText (metas_of metas.now) fault text.now) }
    {
        let value = value_of(alloc, text)?;
        let Some(context) = reading::context_of(&value) else {
            return Err(DocFault::NotDocument);
        };
        let selection = reading::selection_of(alloc, metas, &value)?;
        let written = selection.to_json(alloc, metas, context)?;
        if !is_same(written.bytes(), text) {
            return Err(DocFault::NotDocument);
        }
        Ok((context, selection))
    }
}

/// The JSON value of the text.
fn value_of(alloc: Global, text: &[u8]) -> Result<Value, DocFault>
    ensures ok { IfOk result (λ value. value_of_text text.now ≡ Some (view value)) }
    ensures refused { IfErr result (λ fault. IsNoValue fault text.now) }
{
    match Value::from_slice(alloc, text) {
        Ok(value) => Ok(value),
        Err(error) => {
            if error.is_memory() {
                Err(DocFault::OutOfMemory)
            } else {
                Err(DocFault::NotJson)
            }
        }
    }
}

/// Whether two texts are equal, byte for byte.
fn is_same(written: &[u8], text: &[u8]) -> bool
    ensures { result ≡ bytes_eq written.now text.now }
{
    written == text
}
