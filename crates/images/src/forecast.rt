//! `update --dry-run`: what an update would write and copy, and which sets would go for it. Nothing changes.

use image_folder::{
    Job, Opened, Pair, Status, add_jobs, check_once, compare, goes_up_to, sets_of, want_of,
};

/// Compares the volumes of a pair, whose jobs are none yet.
fn compare_all<'a>(
    opened: &mut Opened,
    pair: Pair<'a>,
    jobs: &mut Vec<Job<'a>>,
) -> Result<(), Status> {
    add_jobs(opened, pair.name, pair.file, false, jobs)?;
    for job in jobs.iter_mut() {
        compare(job, &mut opened.store)?;
    }
    for job in jobs.iter_mut() {
        job.input.check()?;
    }
    Ok(())
}

/// The jobs of the volumes of a pair, which were compared.
fn compared<'a>(opened: &mut Opened, pair: Pair<'a>) -> Result<Vec<Job<'a>>, Status> {
    let mut jobs = Vec::new(opened.folder.program.alloc());
    let done = compare_all(opened, pair, &mut jobs);
    for job in &jobs {
        job.input.say_changed("");
    }
    done?;
    Ok(jobs)
}

/// `update --dry-run F NAME=FILE ..`: what it would write and copy, how many slots that needs, and which sets would go.
pub fn forecast(opened: &mut Opened, pairs: &[Pair<'_>]) -> Result<(), Status> {
    opened.check_transit(&[])?;
    let (program, slots) = (opened.folder.program, opened.store.slots());
    let (mut wants, mut needed) = (Vec::new(program.alloc()), 0u32);
    for (place, pair) in pairs.iter().enumerate() {
        check_once(
            &program,
            opened.folder.path.as_str(),
            *pair,
            &pairs[..place],
        )?;
        let (name, mut written, mut copied) = (pair.name, 0u32, 0u32);
        for job in &compared(opened, *pair)? {
            let want = want_of(&opened.store, program.alloc(), job)?;
            written = written.saturating_add(job.written);
            copied = copied.saturating_add(want.copied);
            wants.push(want)?;
        }
        write!(opened.text, "{name} would write {written} copy {copied}\n")?;
        needed = needed.saturating_add(copied);
    }
    let free = slots.saturating_sub(opened.store.used_all());
    write!(opened.text, "slots {needed} needed, {free} free\n")?;
    let sets = sets_of(&opened.store, program.alloc())?;
    let up_to = goes_up_to(&opened.store, &sets, &wants);
    for set in sets.iter().filter(|set| **set <= up_to) {
        write!(opened.text, "set {set} would go\n")?;
    }
    let (left, least) = (
        sets.iter().filter(|set| **set > up_to).count(),
        opened.least,
    );
    if up_to > 0 && left < least as usize {
        write!(
            opened.text,
            "refused, as {left} of {least} sets would be left\n"
        )?;
    }
    Ok(())
}
