use crate::timeline::bar::Bar;
use crate::timeline::bar_kind::BarKind;
use crate::timeline::ending::Ending;
use crate::timeline::pick::Pick;
use std::alloc::Global;
use vss_names::OutOfMemory;

/// How many bars of a row are drawn at once at most.
pub const MOST_TRACKS: usize = 8;

/// What lasts in a row.
#[derive(Drop)]
pub struct RowBars<'a> {
    /// The bars that have not ended.
    open: Vec<Bar<'a>>,
    /// For each place within the row, from where on it is free, in pixels.
    tracks: Vec<u64>,
}

impl<'a> RowBars<'a> {
    /// Nothing yet.
    pub fn new(alloc: Global) -> RowBars<'a> {
        RowBars {
            open: Vec::new(alloc),
            tracks: Vec::new(alloc),
        }
    }

    /// How many bars of a kind have not ended.
    pub fn count(&self, kind: BarKind) -> u64 {
        self.open.iter().filter(|bar| bar.kind == kind).count() as u64
    }

    /// The latest cut of an image that stands or is being made.
    pub fn newest_cut(&self) -> Option<u64> {
        let mut newest: Option<u64> = None;
        for bar in &self.open {
            if bar.is_image() && newest.unwrap_or(0) <= bar.cut {
                newest = Some(bar.cut);
            }
        }
        newest
    }

    /// The place of the image of a set.
    pub fn track_of(&self, set: u64) -> Option<usize> {
        let bar = self.open.iter().find(|bar| Pick::ImageOf(set).takes(bar))?;
        Some(bar.track)
    }

    /// Takes the first place that is free from `x` on.
    fn take_track(&mut self, x: u64) -> Result<usize, OutOfMemory> {
        for (at, free_from) in self.tracks.iter_mut().enumerate() {
            if *free_from <= x {
                *free_from = u64::MAX;
                return Ok(at);
            }
        }
        let at = self.tracks.len();
        if at <= MOST_TRACKS {
            self.tracks.push(u64::MAX)?;
        }
        Ok(at.min(MOST_TRACKS))
    }

    /// Begins a bar, unless there are enough of its kind.
    pub fn begin(&mut self, bar: Bar<'a>) -> Result<(), OutOfMemory> {
        if bar.kind.most() <= self.count(bar.kind) {
            return Ok(());
        }
        let track = self.take_track(bar.from)?;
        self.open.push(Bar { track, ..bar })?;
        Ok(())
    }

    /// Frees the place of a bar.
    fn free(&mut self, bar: &Bar<'a>) {
        if let Some(free_from) = self.tracks.get_mut(bar.track) {
            *free_from = if bar.to == 0 { 0 } else { bar.end_of_words() };
        }
    }

    /// Ends the bars that are picked. One that had no place is not drawn.
    pub fn end(
        &mut self,
        done: &mut Vec<Bar<'a>>,
        pick: Pick,
        x: u64,
        ending: Ending<'a>,
    ) -> Result<(), OutOfMemory> {
        for at in 0..self.open.len() {
            if let Some(bar) = self.open.get(at).copied() {
                if bar.track < MOST_TRACKS && pick.takes(&bar) {
                    let bar = Bar {
                        to: x,
                        ending,
                        ..bar
                    };
                    self.free(&bar);
                    done.push(bar)?;
                }
            }
        }
        self.open.retain(|bar| !pick.takes(bar));
        Ok(())
    }

    /// Makes of each image that is made one that stands, in the same place.
    pub fn stand(&mut self, done: &mut Vec<Bar<'a>>, x: u64) -> Result<(), OutOfMemory> {
        for bar in self.open.iter_mut() {
            if bar.kind == BarKind::Making {
                if bar.track < MOST_TRACKS {
                    done.push(Bar {
                        to: x,
                        ending: Ending::Done,
                        ..*bar
                    })?;
                }
                bar.kind = BarKind::Image;
                bar.from = x;
            }
        }
        Ok(())
    }

    /// Ends each bar at the right edge of a band; it goes on in the next, in the first place that is free. Of those without a place
    /// the number is kept.
    pub fn turn(&mut self, done: &mut Vec<Bar<'a>>, x: u64) -> Result<(), OutOfMemory> {
        let mut last = None;
        for (at, bar) in self.open.iter_mut().enumerate() {
            if bar.track < MOST_TRACKS {
                done.push(Bar { to: x, ..*bar })?;
            }
            bar.track = at.min(MOST_TRACKS);
            bar.from = 0;
            last = Some(*bar);
        }
        let count = self.open.len();
        for (at, free_from) in self.tracks.iter_mut().enumerate() {
            *free_from = if at < count { u64::MAX } else { 0 };
        }
        match last {
            Some(bar) if MOST_TRACKS < count => {
                done.push(Bar {
                    kind: BarKind::More,
                    number: (count - MOST_TRACKS) as u64,
                    to: x,
                    ..bar
                })?;
                Ok(())
            }
            _ => Ok(()),
        }
    }
}
