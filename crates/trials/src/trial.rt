use crate::call::Call;
use crate::calls;
use crate::groups::Groups;
use crate::mirrored::Mirrored;
use crate::page::Page;
use crate::plan::Plan;
use crate::recovering::Recovering;
use crate::sharded::Sharded;
use crate::stopped::{Done, Stopped};
use std::alloc::Global;
use std::sync::Wait;
use std::thread::Threads;

/// What the lines are about.
#[derive(Clone, Copy, PartialEq, Eq)]
pub enum Subject {
    /// Single calls of the lower crates.
    Calls,
    Cow,
    Mirror,
    Recover,
    Shards,
}

/// What the lines are about, what they made so far of each subject, and which calls fail of the devices that are made next.
#[derive(Drop)]
pub struct Trial {
    pub subject: Subject,
    plan: Plan,
    groups: Groups,
    mirrored: Mirrored,
    recovering: Recovering,
    sharded: Sharded,
}

impl Subject {
    /// The subject with this name.
    pub fn of(name: &str) -> Option<Subject> {
        match name {
            "calls" => Some(Subject::Calls),
            "cow" => Some(Subject::Cow),
            "mirror" => Some(Subject::Mirror),
            "recover" => Some(Subject::Recover),
            "shards" => Some(Subject::Shards),
            _ => None,
        }
    }
}

/// The numbers among words.
fn numbers_in(alloc: Global, words: &str) -> Result<Vec<u32>, Stopped> {
    let mut numbers = Vec::new(alloc);
    for word in words.split(' ') {
        if let Ok(number) = word.parse::<u32>() {
            numbers.push(number)?;
        }
    }
    Ok(numbers)
}

impl Trial {
    /// A trial of this, of which nothing is made.
    pub fn new(alloc: Global, subject: Subject) -> Trial {
        Trial {
            subject,
            plan: Plan::none(alloc),
            groups: Groups { group: None },
            mirrored: Mirrored { volume: None },
            recovering: Recovering { volume: None },
            sharded: Sharded::new(alloc),
        }
    }

    /// Makes the call of a line.
    fn make<R: Threads + Wait + Sync>(
        &mut self,
        handle: &R,
        page: &mut Page,
        call: Call<'_>,
    ) -> Done {
        let plan = &mut self.plan;
        match self.subject {
            Subject::Calls => calls::make(page, plan, call),
            Subject::Cow => self.groups.take(page, plan, call),
            Subject::Mirror => self.mirrored.take(page, plan, call),
            Subject::Recover => self.recovering.take(page, plan, call),
            Subject::Shards => self.sharded.take(handle, page, plan, call),
        }
    }

    /// Takes a line.
    pub fn take<R: Threads + Wait + Sync>(
        &mut self,
        handle: &R,
        page: &mut Page,
        line: &str,
    ) -> Done {
        let (word, rest) = line.split_once(' ').unwrap_or((line, ""));
        match word {
            "" | "#" => return Ok(()),
            "subject" => self.subject = Subject::of(rest).ok_or(Stopped)?,
            "fails" => self.plan.add(rest)?,
            _ => {
                let numbers = numbers_in(page.alloc(), rest)?;
                let numbers = numbers.as_slice();
                return self.make(
                    handle,
                    page,
                    Call {
                        word,
                        rest,
                        numbers,
                    },
                );
            }
        }
        Ok(())
    }
}
