ghost use Rattle.std.specs.Prelude.{◌≡◌, ◌↔◌, ◌+◌, ◌<◌, ◌≤◌, ◌++◌, ◌==◌, ℕ, Some, None, not, filter};
ghost use Rattle.std.specs.Prelude.{vec_len, vec_capacity, option_to_list, IsTrue, IfSome};
ghost use Rattle.std.specs.List.Sorted.{IsPermutation};
ghost use Rattle.vss_play.specs.Acting.{IsSeated, StaysWithAnother};

/// How many of those that moved last are asked again first.
pub const RECENT: usize = 4;

/// A move was hard to find where more than so many others were blocked before it.
const FEW: usize = 4;

/// An actor waits for long once so many rounds for each actor have begun since it moved.
const LONG: u64 = 2;

/// Who has the floor of a room, and who rests in it, in the order in which they are asked.
#[derive(Drop)]
pub struct Line {
    holder: Option<usize>,
    resting: Vec<usize>,
    /// Those that moved last, the last of them first.
    recent: Vec<usize>,
    /// Those that were hard to find, the last of them first.
    hard: Vec<usize>,
    /// In which round each actor moved last.
    moved: Vec<u64>,
    /// How many of the first of the line may have a move. The others were blocked in this round.
    unasked: usize,
    /// How many rounds have begun. One begins when an actor that moved is blocked or leaves.
    round: u64,
    /// How many actors came and have not left.
    present: usize,
    /// How many are waited for that have not come.
    absent: usize,
}

impl Line {
    /// Nobody has the floor yet. `resting` has room for all actors, and `recent` and `hard` for one more than `RECENT`. `moved` has
    /// a zero for each actor.
    pub fn new(resting: Vec<usize>, recent: Vec<usize>, hard: Vec<usize>, moved: Vec<u64>) -> Line
        ensures free { result.holder ≡ None }
        ensures resting { result.resting ≡ resting }
    {
        let actors = moved.len();
        Line {
            holder: None,
            resting,
            recent,
            hard,
            moved,
            unasked: 0,
            round: 0,
            present: 0,
            absent: actors,
        }
    }

    /// An actor comes. Which round it is.
    pub fn come(&mut self) -> u64
        ensures resting { self.new.resting ≡ self.old.resting }
        ensures holder { self.new.holder ≡ self.old.holder }
    {
        self.absent = self.absent.saturating_sub(1);
        self.present = self.present.saturating_add(1);
        self.round
    }

    /// Which round it is.
    pub fn round(&self) -> u64
        ensures { result ≡ self.now.round }
    {
        self.round
    }

    /// How many rest, and one more.
    pub fn place(&self) -> u64 {
        (self.resting.len() as u64).saturating_add(1)
    }

    /// Whether an actor that was blocked in this round has nobody to wait for: all others rest, and were blocked in it too.
    pub fn waits_for_nobody(&self) -> bool {
        self.unasked == 0 && self.resting.len() >= self.actors().saturating_sub(1)
    }

    /// How many actors there are, with those that are waited for.
    fn actors(&self) -> usize {
        self.present.saturating_add(self.absent)
    }

    /// Gives the floor of an actor, or that of nobody, to the first of the line; or to nobody, where all of the line were
    /// blocked in this round and somebody else may move. Where nobody may, each gets the floor once more, and leaves.
    fn pass(&mut self, actor: usize) -> Option<usize>
        ensures next { self.old.resting.items ≡ option_to_list result ++ self.new.resting.items }
        ensures floor { IfSome result (λ next. self.new.holder ≡ Some next) }
        ensures held { StaysWithAnother self.old.holder actor self.new.holder result }
        ensures space { vec_capacity self.new.resting ≡ vec_capacity self.old.resting }
    {
        if self.holder != Some(actor) && self.holder.is_some() {
            return None;
        }
        self.holder = None;
        let is_over = self.resting.len() >= self.actors();
        if self.resting.is_empty() || self.unasked == 0 && !is_over {
            return None;
        }
        let next = self.resting.remove(0);
        self.holder = Some(next);
        self.unasked = self.unasked.saturating_sub(1);
        Some(next)
    }

    /// An actor moved and was blocked then, or leaves: in a new round all may have a move. Those that wait for long are asked after
    /// the others, and before them where one leaves. Where the move was hard to find, or is of one of those that moved last, those
    /// are asked next. So of a few that wait for one another each is found at once, and where all move by turns nobody is
    /// asked twice.
    pub fn begin_round(&mut self, actor: usize, leaves: bool)
        ensures all { IsPermutation self.old.resting.items self.new.resting.items }
        ensures unasked { self.new.unasked ≡ vec_len self.new.resting }
        ensures holder { self.new.holder ≡ self.old.holder }
        ensures space { vec_capacity self.new.resting ≡ vec_capacity self.old.resting }
    {
        let is_hard = self.blocked() > FEW;
        let is_next = !leaves && (is_hard || self.recent.contains(&actor));
        self.round = self.round.wrapping_add(1);
        put_first(&mut self.recent, actor, true);
        put_first(&mut self.hard, actor, is_hard);
        set_round(&mut self.moved, actor, self.round);
        let long_ago = self.long_ago();
        part(&mut self.resting, &self.moved, long_ago, leaves);
        let all = self.resting.len();
        bring_all_forward(
            &mut self.resting,
            &self.recent,
            if is_next { all } else { 0 },
        );
        self.unasked = all;
    }

    /// How many that rest were blocked in this round.
    fn blocked(&self) -> usize {
        self.resting.len().saturating_sub(self.unasked)
    }

    /// Who has not moved since this round waits for long.
    fn long_ago(&self) -> u64 {
        self.round
            .saturating_sub(LONG.saturating_mul(self.moved.len() as u64))
    }

    /// An actor was blocked that did not move before. Where it is one of a few, those that moved last are asked next, and then
    /// those that were hard to find.
    pub fn look_back(&mut self)
        ensures all { IsPermutation self.old.resting.items self.new.resting.items }
        ensures unasked { self.new.unasked ≡ self.old.unasked }
        ensures holder { self.new.holder ≡ self.old.holder }
        ensures space { vec_capacity self.new.resting ≡ vec_capacity self.old.resting }
    {
        let first = if self.blocked() == FEW {
            self.unasked
        } else {
            0
        };
        bring_all_forward(&mut self.resting, &self.hard, first);
        bring_all_forward(&mut self.resting, &self.recent, first);
    }

    /// An actor that was blocked gives up the floor, where it has it, and rests. To whom the floor went.
    pub fn rest(&mut self, actor: usize) -> Option<usize>
        ensures all { vec_len self.old.resting < vec_capacity self.old.resting
            → IsSeated self.old.resting.items actor result self.new.resting.items }
        ensures floor { IfSome result (λ next. self.new.holder ≡ Some next) }
        ensures held { StaysWithAnother self.old.holder actor self.new.holder result }
    {
        let next = self.pass(actor);
        let _ = self.resting.push(actor);
        next
    }

    /// An actor rests no more. Whether it has the floor: it was given to it, or nobody had it. One that rises by itself has
    /// waited for long: one fewer of those that have not come is waited for.
    pub fn rise(&mut self, actor: usize) -> bool
        ensures gone { self.new.resting.items ≡ filter (λ one. not (one == actor)) self.old.resting.items }
        ensures floor { IsTrue result ↔ (self.new.holder ≡ Some actor) }
        ensures free { self.old.holder ≡ None → IsTrue result }
        ensures held { (other : ℕ) → self.old.holder ≡ Some other → self.new.holder ≡ Some other }
    {
        if let Some(at) = self.resting.iter().position(|it| *it == actor) {
            self.unasked = self.unasked.saturating_sub((at < self.unasked) as usize);
            self.absent = self.absent.saturating_sub(1);
        }
        take_out(&mut self.resting, actor);
        match self.holder {
            None => {
                self.holder = Some(actor);
                true
            }
            Some(holder) => holder == actor,
        }
    }

    /// An actor leaves for good. To whom the floor went.
    pub fn leave(&mut self, actor: usize) -> Option<usize>
        ensures next { self.old.resting.items ≡ option_to_list result ++ self.new.resting.items }
        ensures floor { IfSome result (λ next. self.new.holder ≡ Some next) }
        ensures held { StaysWithAnother self.old.holder actor self.new.holder result }
    {
        self.present = self.present.saturating_sub(1);
        self.pass(actor)
    }
}

/// Takes an actor out of a list.
fn take_out(list: &mut Vec<usize>, actor: usize)
    ensures { list.new.items ≡ filter (λ one. not (one == actor)) list.old.items }
{
    list.retain(|one| *one != actor);
}

/// An actor goes to the front of a short list, if it is wanted there.
fn put_first(list: &mut Vec<usize>, actor: usize, wanted: bool) {
    if wanted {
        take_out(list, actor);
        let _ = list.insert(0, actor);
        list.truncate(RECENT);
    }
}

/// An actor moved in a round.
fn set_round(moved: &mut Vec<u64>, actor: usize, round: u64) {
    if let Some(moved) = moved.get_mut(actor) {
        *moved = round;
    }
}

/// Takes the one at a place of a line to an earlier place, if it is wanted there. The place of the next one.
fn put_before(line: &mut Vec<usize>, at: usize, place: usize, wanted: bool) -> usize
    requires { (place ≤ at) × (at < vec_len line.old) }
    ensures all { IsPermutation line.old.items line.new.items }
    ensures space { vec_capacity line.new ≡ vec_capacity line.old }
    ensures many { vec_len line.new ≡ vec_len line.old }
    ensures next { result ≤ at + 1 }
{
    if !wanted {
        return place;
    }
    if place == at {
        return place + 1;
    }
    let one = line.remove(at);
    let _ = line.insert(place, one);
    place + 1
}

/// Those of a line that have not moved since a round go to its front, or the others. Each part keeps its order.
fn part(line: &mut Vec<usize>, moved: &[u64], long_ago: u64, long_first: bool)
    ensures all { IsPermutation line.old.items line.new.items }
    ensures space { vec_capacity line.new ≡ vec_capacity line.old }
{
    let mut first = 0;
    for at in 0..line.len() {
        let wanted = is_before(moved, line[at], long_ago) == long_first;
        first = put_before(line, at, first, wanted);
    }
}

/// Whether an actor moved before a round.
fn is_before(moved: &[u64], actor: usize, round: u64) -> bool {
    match moved.get(actor) {
        Some(moved) => *moved < round,
        None => false,
    }
}

/// Who is among so many first of a line goes to its front.
fn bring_forward(line: &mut Vec<usize>, one: usize, first: usize)
    ensures all { IsPermutation line.old.items line.new.items }
    ensures space { vec_capacity line.new ≡ vec_capacity line.old }
    ensures many { vec_len line.new ≡ vec_len line.old }
{
    if let Some(at) = line.iter().position(|it| *it == one) {
        let _ = put_before(line, at, 0, at < first);
    }
}

/// Those of a list that are among so many first of a line go to its front, in the order of the list.
fn bring_all_forward(line: &mut Vec<usize>, list: &[usize], first: usize)
    ensures all { IsPermutation line.old.items line.new.items }
    ensures space { vec_capacity line.new ≡ vec_capacity line.old }
    ensures many { vec_len line.new ≡ vec_len line.old }
{
    if first == 0 {
        return;
    }
    for one in list.iter().rev() {
        bring_forward(line, *one, first);
    }
}
