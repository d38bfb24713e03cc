ghost use Rattle.std.specs.Prelude.{◌≡◌, ◌&&◌, ◌++◌, ◌==◌, ◌||◌, ◌<◌, ◌≤◌, ℕ, Bool, [], All, if◌then◌else◌, length, map, true, IfOk, OnErr, OnOk};
ghost use Rattle.set_agenda.specs.Agenda.{is_among};
ghost use Rattle.set_agenda.specs.Advance.{are_distinct, by_writer};
ghost use Rattle.set_agenda.specs.Course.{has_row_failed, member_if, members_from};
ghost use Rattle.set_agenda.specs.WriterSet.{writers};
ghost use Rattle.writer_state.specs.declared.writer_row.WriterRow.{WriterRow};
ghost use Rattle.component_doc.specs.Selection.{takers};
ghost use Rattle.coordinator.specs.Beginning.{asked_by, asks, volumes_if};

use crate::kept_course::KeptCourse;
use crate::writer_names::{WriterNames, has_class_of};
use crate::writer_rows::WriterRows;
use component_doc::Selection;
use set_agenda::{Kind, Member, WriterSet};
use std::alloc::Global;
use vss_names::OutOfMemory;
use writer_state::is_failed;

/// The volumes of an agenda of this kind: those of the set, for a snapshot.
pub fn volumes_if(kind: Kind, volumes: &[u32]) -> &[u32]
    ensures { result.now ≡ volumes_if kind volumes.now }
{
    match kind {
        Kind::Snapshot => volumes,
        Kind::Gather | Kind::Prepare | Kind::Complete => &[],
    }
}

fn has_row_failed(rows: &WriterRows, writer: u32) -> bool
    requires { writer < length rows.now }
    ensures { result ≡ has_row_failed rows.now writer }
{
    is_failed(rows.row(writer).state)
}

/// Whether an agenda of this kind asks the writer.
fn asks(
    kind: Kind,
    names: &WriterNames,
    kept: &KeptCourse,
    selection: &Selection,
    writer: u32,
) -> bool
    requires few { length names.now ≤ 64 }
    requires named { length names.now ≡ length kept.now.rows }
    requires known { writer < length kept.now.rows }
    ensures { result ≡ asks kind names.now kept.now (takers selection.now.writers selection.now.selected) writer }
{
    match kind {
        Kind::Gather => !has_class_of(names, &kept.disabled, writer),
        Kind::Prepare => selection.takes(writer) && !has_class_of(names, &kept.disabled, writer),
        Kind::Snapshot => kept.members.contains(writer),
        Kind::Complete => kept.members.contains(writer) && !has_row_failed(&kept.rows, writer),
    }
}

fn insert_if(set: &mut WriterSet, really: bool, writer: u32)
    requires { writer < 64 }
    ensures { (p : ℕ → Bool) → set.old ≡ writers p → set.new ≡ writers (λ w. p w || (really && (writer == w))) }
{
    if really {
        set.insert(writer);
    }
}

/// The writers that an agenda of this kind asks.
pub fn asked(kind: Kind, names: &WriterNames, kept: &KeptCourse, selection: &Selection) -> WriterSet
    requires few { length names.now ≤ 64 }
    requires named { length names.now ≡ length kept.now.rows }
    ensures { result ≡ asked_by kind names.now kept.now (takers selection.now.writers selection.now.selected) }
{
    let mut asked = WriterSet::new();
    let mut number = 0;
    while number < kept.rows.len() {
        let writer = number as u32;
        insert_if(
            &mut asked,
            asks(kind, names, kept, selection, writer),
            writer,
        );
        number += 1;
    }
    asked
}

fn push_if(members: &mut Vec<Member>, really: bool, member: Member) -> Result<(), OutOfMemory>
    ensures { (r : WriterRow) → r.level ≡ member.level → OnOk result (members.new.items ≡ members.old.items ++ member_if really member.writer r) }
{
    if really {
        members.push(member)?;
    }
    Ok(())
}

/// These writers as members, in the order of their numbers.
pub fn members_of(
    alloc: Global,
    rows: &WriterRows,
    asked: &WriterSet,
) -> Result<Vec<Member>, OutOfMemory>
    requires { length rows.now ≤ 64 }
    ensures members { IfOk result (λ ms. ms.items ≡ members_from (λ w. is_among w asked.now) 0 rows.now) }
    ensures small { IfOk result (λ ms. All (λ m. m.writer < 64) ms.items) }
    ensures once { IfOk result (λ ms. are_distinct (map (λ m. m.writer) ms.items) ≡ true) }
    ensures ordered { IfOk result (λ ms. by_writer ms.items ≡ ms.items) }
{
    let mut members = Vec::new(alloc);
    let mut number = 0;
    while number < rows.len() {
        let writer = number as u32;
        let level = rows.row(writer).level;
        push_if(
            &mut members,
            asked.contains(writer),
            Member { writer, level },
        )?;
        number += 1;
    }
    Ok(members)
}
