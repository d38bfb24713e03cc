//! The choices of one writer, put behind those of the writers before it.
ghost use Rattle.std.specs.Prelude.{◌≡◌, ◌≤◌, ◌++◌, [], map, length, option_map, OnOk, IsTrue};
ghost use Rattle.writer_meta.specs.Metadata.{part_of, meta_of};
ghost use Rattle.component_doc.specs.Over.{selected_of, has_few};
ghost use Rattle.component_doc.specs.Selection.{Named, AllOf, choice_if, choices_from, choices_of};

use crate::above::Above;
use crate::choice::Choice;
use crate::pair::Pair;
use crate::pairs;
use crate::taken::Taken;
use vss_names::OutOfMemory;
use writer_meta::{Component, Metadata};

/// Adds the choices of a writer, if it takes part.
pub(crate) fn choose_of_writer(
    taken: &Taken,
    writer: u32,
    known: Option<&Metadata>,
    choices: &mut Vec<Choice>,
) -> Result<(), OutOfMemory>
    requires { IsTrue (has_few (option_map (λ m. meta_of m.now) known)) }
    ensures { OnOk result (choices.new.items
        ≡ choices.old.items ++ choices_of (selected_of taken.now) writer (option_map (λ m. meta_of m.now) known.entry)) }
{
    let Some(metadata) = known else {
        return Ok(());
    };
    if !taken.takes(writer) {
        return Ok(());
    }
    let components = metadata.components.items();
    match taken {
        Taken::Named(named) => choose_named(named, writer, components, choices),
        Taken::AllOf(_) => choose_all(writer, components, choices),
    }
}

fn choose_named(
    named: &[Pair],
    writer: u32,
    components: &[Component],
    choices: &mut Vec<Choice>,
) -> Result<(), OutOfMemory>
    requires { length components.now ≤ 1024 }
    ensures { OnOk result (choices.new.items ≡ choices.old.items
        ++ choices_from (Named named.now) (map part_of components.now) writer 0 (map part_of components.now)) }
{
    let pairs = pairs::around_writer(named, writer);
    choose_by_names(pairs, writer, components, choices)
}

fn choose_by_names(
    pairs: &[Pair],
    writer: u32,
    components: &[Component],
    choices: &mut Vec<Choice>,
) -> Result<(), OutOfMemory>
    requires { length components.now ≤ 1024 }
    ensures { OnOk result (choices.new.items ≡ choices.old.items
        ++ choices_from (Named pairs.now) (map part_of components.now) writer 0 (map part_of components.now)) }
{
    let Some(first) = components.first() else {
        return Ok(());
    };
    let mut above = Above::of(pairs, writer, first, components);
    for (i, component) in components.iter().enumerate() {
        let pair = Pair {
            writer,
            component: i as u32,
        };
        above = above.at(pairs, writer, component, components);
        let explicit = pairs::has(pairs, pair);
        let chosen = explicit || above.named || (!component.selectable && !above.selectable);
        choose_if(chosen, pair, explicit, choices)?;
    }
    Ok(())
}

fn choose_all(
    writer: u32,
    components: &[Component],
    choices: &mut Vec<Choice>,
) -> Result<(), OutOfMemory>
    requires { length components.now ≤ 1024 }
    ensures { OnOk result (choices.new.items ≡ choices.old.items
        ++ choices_from (AllOf []) (map part_of components.now) writer 0 (map part_of components.now)) }
{
    for (i, _component) in components.iter().enumerate() {
        let pair = Pair {
            writer,
            component: i as u32,
        };
        choose_if(true, pair, false, choices)?;
    }
    Ok(())
}

fn choose_if(
    chosen: bool,
    pair: Pair,
    explicit: bool,
    choices: &mut Vec<Choice>,
) -> Result<(), OutOfMemory>
    ensures { OnOk result (choices.new.items
        ≡ choices.old.items ++ choice_if chosen pair.writer pair.component explicit) }
{
    if chosen {
        choices.push(Choice {
            writer: pair.writer,
            component: pair.component,
            explicit,
        })?;
    }
    Ok(())
}
