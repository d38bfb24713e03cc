//! The promises: functions that do nothing, whose contracts are the laws.

ghost use Rattle.std.specs.Prelude.{◌≡◌, true, List};
ghost use Rattle.write_history.specs.declared.move_item.Move.{Move};
ghost use Rattle.scenario.specs.Plan.{Plan};
ghost use Rattle.scenario.specs.Bounds.{IsPlan};
ghost use Rattle.vss_model.specs.Acts.{Act};
ghost use Rattle.vss_model.specs.Trail.{is_legal, is_complete};
ghost use Rattle.promises.specs.Accepted.{AcceptsInOrder, HasItsContext};
ghost use Rattle.promises.specs.Answers.{AnswersSay};
ghost use Rattle.promises.specs.Participants.{AsksItsOwn, CompletesUnfailed, LosesTheLate, ChosenTakePart, TakesPart};
ghost use Rattle.promises.specs.Awaited.{AwaitTells, FailsByCode};
ghost use Rattle.promises.specs.Calls.{CallsAreOwned, WaitsAreFew, WaitsAreDue, StandsQuiet, FrozenDoNotWrite, MarksAreDue, RefusalsChangeNothing};
ghost use Rattle.promises.specs.Clock.{ClockMoves, IdlesShortest, HasItsNumbers, OrdersEnd, StandsWithinLimits};
ghost use Rattle.promises.specs.Replies.{ClosesAsKept, FindsTheKept, RepliesTell};
ghost use Rattle.promises.specs.Contents.{ContentsChange};
ghost use Rattle.promises.specs.Gone.{BackupsEnd, IsDone, TellsEvicted, ImagesGoForCause};
ghost use Rattle.promises.specs.Copies.{CopiesHold, KeepsCopies, PropertiesTell, SlotsSuffice};
ghost use Rattle.promises.specs.Way.{CutsAtTheStep, StepsInTurn, StandsStill, CompletesByTheWay};
ghost use Rattle.promises.specs.Ends.{TellsTheEnd, KeepsRows, EndsEachSet, CompletesWhereCalm, VolumesAreDistinct};
ghost use Rattle.promises.specs.Failing.{FailsForCause, WritesFailForSlots};
ghost use Rattle.promises.specs.Headline.{Headline};
ghost use Rattle.promises.specs.Promises.{IsAsPromised};
ghost use Rattle.promises.specs.Refusing.{RefusesForCause};
ghost use Rattle.promises.specs.Rows.{RowsChange};
ghost use Rattle.promises.specs.Scripted.{AnswersByScript};
ghost use Rattle.promises.specs.Documented.{TellsDocument};
ghost use Rattle.promises.specs.Owed.{NobodyOwes};

/// A set that completes has come the whole way since its `snapshot` line: PrepareSnapshot, Freeze, PreCommit, Flush, Hold, Cut,
/// Commit, Release, PostCommit, Thaw, PostSnapshot, in this order and nothing twice.
#[tactic(auto, using(crate::proofs::Whole::complete_by_the_way))]
pub fn sets_complete_by_the_way()
    ensures { (s : Plan) (so_far : List Act) (act : Act) → CompletesByTheWay s so_far act }
{}

/// An image goes only where its set fails, a line takes it, or a write finds no slot left in its group.
#[tactic(auto, using(crate::proofs::Images::images_go_for_cause))]
pub fn images_go_for_cause()
    ensures { (s : Plan) (so_far : List Act) (act : Act) → ImagesGoForCause s so_far act }
{}

/// A write tells as evicted exactly the images that were kept before it and do not stand after it, in order.
pub fn writes_tell_the_evicted()
    ensures { (s : Plan) (so_far : List Act) (act : Act) → TellsEvicted s so_far act }
{}

/// A copy that an area keeps holds its block as it was at the one cut of its set.
#[tactic(auto, using(crate::proofs::Contents::copies_hold))]
pub fn copies_hold_the_cut()
    ensures { (s : Plan) (so_far : List Act) → CopiesHold s so_far }
{}

/// A set is cut in the act that is answered as its Cut step, and in no other.
#[tactic(auto, using(crate::proofs::CutTimes::cuts_at_the_step))]
pub fn sets_are_cut_at_their_step()
    ensures { (s : Plan) (so_far : List Act) (act : Act) → CutsAtTheStep s so_far act }
{}

/// The closing lines of a volume show the copies that its area keeps of it, and the images that `query` lists.
#[tactic(auto, using(crate::proofs::Replies::closes_as_kept))]
pub fn closing_lines_show_what_is_kept()
    ensures { (s : Plan) (so_far : List Act) → ClosesAsKept s so_far }
{}

/// A step on a volume comes only when the same step was made on each volume that was added before it.
#[tactic(auto, using(crate::proofs::Once::steps_in_turn))]
pub fn steps_are_made_in_turn()
    ensures { (s : Plan) (so_far : List Act) (act : Act) → StepsInTurn s so_far act }
{}

/// The set that is told as ended is the one that was in progress and is over after the act.
#[tactic(auto, using(crate::proofs::Replies::tells_the_end))]
pub fn the_set_that_ends_is_told()
    ensures { (s : Plan) (so_far : List Act) (act : Act) → TellsTheEnd s so_far act }
{}

/// A move may have a fault mark only if a device is called in it: a write, a read, an image that is kept, a flush, or a revert.
#[tactic(auto, using(crate::proofs::Moves::marks_are_due))]
pub fn devices_fail_where_they_are_called()
    ensures { (s : Plan) (so_far : List Act) → MarksAreDue s so_far }
{}

/// BackupComplete goes to no writer that has failed.
pub fn no_failed_writer_is_told_of_completion()
    ensures { (s : Plan) (so_far : List Act) → CompletesUnfailed s so_far }
{}

/// Exactly those writers take part that the accepted `prepare` of the session has chosen: those of which the session has named a component
/// since its `begin`; or, where it takes all, those that are not of a disabled class and do not stand as failed at Identify. None is of a
/// disabled class, nobody takes part before, and no other act changes who does while a set is in progress.
#[tactic(auto, using(crate::proofs::Participants::chosen_take_part, crate::proofs::Participants::takes_part))]
pub fn the_chosen_take_part()
    ensures prepared { (s : Plan) (so_far : List Act) (act : Act) → TakesPart s so_far act }
    ensures standing { (s : Plan) (so_far : List Act) → ChosenTakePart s so_far }
{}

/// Identify goes to writers of no disabled class, and every other order to those that take part.
#[tactic(auto, using(crate::proofs::Asked::asks_its_own))]
pub fn orders_go_to_those_they_are_for()
    ensures { (s : Plan) (so_far : List Act) → AsksItsOwn s so_far }
{}

/// An area never needs more slots than it has: there are no more copies to keep for the images of its group.
#[tactic(auto, using(crate::proofs::Slots::slots_suffice))]
pub fn images_fit_their_slots()
    ensures { (s : Plan) (so_far : List Act) → SlotsSuffice s so_far }
{}

/// No volume is twice in a set.
#[tactic(auto, using(crate::proofs::SetRows::volumes_are_distinct))]
pub fn volumes_are_once_in_a_set()
    ensures { (s : Plan) (so_far : List Act) → VolumesAreDistinct s so_far }
{}

/// An act that gives a cause fails the set in progress in that act, and no other act fails it.
#[tactic(auto, using(crate::proofs::Failing::fails_for_cause))]
pub fn sets_fail_for_cause()
    ensures { (s : Plan) (so_far : List Act) (act : Act) → FailsForCause s so_far act }
{}

/// A set fails with the code of its cause: of the veto, of a failed flush, of `abort` or `end`, of a write, or of a limit.
#[tactic(auto, using(crate::proofs::Codes::fails_by_code))]
pub fn sets_fail_with_the_code_of_their_cause()
    ensures { (s : Plan) (so_far : List Act) (act : Act) → FailsByCode s so_far act }
{}

/// A write fails the set in progress exactly where it finds no slot unless the set's own image goes.
#[tactic(auto, using(crate::proofs::Failing::writes_fail_for_slots))]
pub fn writes_fail_sets_for_slots()
    ensures { (s : Plan) (so_far : List Act) (act : Act) → WritesFailForSlots s so_far act }
{}

/// A set keeps its row whatever comes, with its number, its context and its volumes; and one that is over stays as it is.
#[tactic(auto, using(crate::proofs::SetRows::keeps_rows))]
pub fn sets_keep_their_rows()
    ensures { (s : Plan) (so_far : List Act) (act : Act) → KeepsRows s so_far act }
{}

/// In a legal and complete trail each set that was started ends: it is complete, or it has failed.
#[tactic(auto, using(crate::proofs::Headline::ends_each_set))]
pub fn each_set_ends()
    ensures { (s : Plan) (trail : List Move) → IsPlan s → is_legal s trail ≡ true → is_complete s trail ≡ true → EndsEachSet s trail }
{}

/// In a legal and complete trail a set in progress that nothing disturbs completes: no writer vetoes what needs its consent, no limit is
/// outrun, no device fails a flush, no image of the set goes for want of a slot, and its owner calls neither `abort` nor `end`.
#[tactic(auto, using(crate::proofs::Headline::complete_where_calm))]
pub fn calm_sets_complete()
    ensures { (s : Plan) (trail : List Move) → IsPlan s → is_legal s trail ≡ true → is_complete s trail ≡ true
        → CompletesWhereCalm s trail }
{}

/// Lines find exactly the images that are kept; a revert is refused only for an image that is not, for one of context 0 or for a volume of
/// the set in progress, by a code each; and a deletion only where nothing of what it names is kept.
#[tactic(auto, using(crate::proofs::Refusals::finds_the_kept))]
pub fn lines_find_what_is_kept()
    ensures { (s : Plan) (so_far : List Act) (act : Act) → FindsTheKept s so_far act }
{}

/// After a `delete` what it names is gone, and after a revert the images of later sets on its volume are.
#[tactic(auto, using(crate::proofs::ContextZero::is_done))]
pub fn what_is_asked_is_done()
    ensures { (s : Plan) (so_far : List Act) (act : Act) → IsDone s so_far act }
{}

/// A block of a volume is changed by a write to it that no device failed, which puts its bytes there, or by a revert of the volume,
/// to what the image shows, and by nothing else.
#[tactic(auto, using(crate::proofs::Contents::contents_change))]
pub fn contents_change_by_writes_and_reverts()
    ensures { (s : Plan) (so_far : List Act) (act : Act) → ContentsChange s so_far act }
{}

/// A `tick` line moves the clock by its ticks, an idle stretch by its length, and nothing else moves it.
#[tactic(auto, using(crate::proofs::Moves::clock_moves))]
pub fn the_clock_moves_by_ticks()
    ensures { (s : Plan) (so_far : List Act) (act : Act) → ClockMoves s so_far act }
{}

/// An idle stretch is the shortest that spends a limit that runs.
#[tactic(auto, using(crate::proofs::Moves::idles_shortest))]
pub fn idle_stretches_are_shortest()
    ensures { (s : Plan) (so_far : List Act) → IdlesShortest s so_far }
{}

/// A session call of a lane that does not own the session is refused, and changes nothing.
pub fn calls_are_the_owners()
    ensures { (s : Plan) (so_far : List Act) (act : Act) → CallsAreOwned s so_far act }
{}

/// A refusal changes nothing, and neither does a line that only looks.
#[tactic(auto, using(crate::proofs::Moves::refusals_change_nothing))]
pub fn refusals_change_nothing()
    ensures { (s : Plan) (so_far : List Act) (act : Act) → RefusalsChangeNothing s so_far act }
{}

/// A call is accepted exactly where it comes in its order, below its maxima, and is the owner's; and a session has the context of its
/// `begin`.
#[tactic(auto, using(crate::proofs::Accepted::accepts_in_order, crate::proofs::Progress::has_its_context))]
pub fn calls_are_accepted_in_order()
    ensures accepts { (s : Plan) (so_far : List Act) (act : Act) → AcceptsInOrder s so_far act }
    ensures context { (s : Plan) (so_far : List Act) → HasItsContext s so_far }
{}

/// Only writes, `begin` and `await` wait; without a session no agenda runs; and no lane writes as a writer that stands frozen.
#[tactic(auto, using(crate::proofs::Moves::waits_are_few, crate::proofs::Moves::waits_are_due, crate::proofs::Moves::stands_quiet, crate::proofs::Moves::frozen_do_not_write))]
pub fn few_lines_wait()
    ensures waits { (s : Plan) (so_far : List Act) → WaitsAreFew s so_far }
    ensures due { (s : Plan) (so_far : List Act) → WaitsAreDue s so_far }
    ensures quiet { (s : Plan) (so_far : List Act) → StandsQuiet s so_far }
    ensures frozen { (s : Plan) (so_far : List Act) → FrozenDoNotWrite s so_far }
{}

/// An answer says what was done: a write whether its block was written, a step whether a device failed in it, an idle stretch how long it
/// was, and a `delete` how many images went.
#[tactic(auto, using(crate::proofs::Answers::answers_say))]
pub fn answers_say_what_was_done()
    ensures { (s : Plan) (so_far : List Act) (act : Act) → AnswersSay s so_far act }
{}

/// `read` tells a block as it is, `image` one or all as they were at the set's cut, and `query` exactly the sets that are kept.
#[tactic(auto, using(crate::proofs::Replies::replies_tell))]
pub fn replies_tell_what_stands()
    ensures { (s : Plan) (so_far : List Act) (act : Act) → RepliesTell s so_far act }
{}

/// `properties` tells of a kept image the context of its set, the clock at the set's one cut, and the slots that the image uses.
#[tactic(auto, using(crate::proofs::CutTimes::properties_tell))]
pub fn properties_tell_the_image()
    ensures { (s : Plan) (so_far : List Act) (act : Act) → PropertiesTell s so_far act }
{}

/// `await` tells the last result: none after `begin`, AsyncFinished where an agenda ended without failing the set, and the set's own where it failed.
pub fn await_tells_the_last_result()
    ensures { (s : Plan) (so_far : List Act) (act : Act) → AwaitTells s so_far act }
{}

/// A writer's row changes by what the writer says, or by its lost answer; by its set's failure, which each participant is told once that has
/// not failed; by `gather` and by `end`; and by nothing else.
#[tactic(auto, using(crate::proofs::RowChanges::rows_change))]
pub fn rows_change_by_what_is_said()
    ensures { (s : Plan) (so_far : List Act) (act : Act) → RowsChange s so_far act }
{}

/// Where the clock goes on, exactly those writers are told as lost that owe the answer to an order whose time is over then.
#[tactic(auto, using(crate::proofs::Lost::loses_the_late))]
pub fn the_late_are_lost()
    ensures { (s : Plan) (so_far : List Act) (act : Act) → LosesTheLate s so_far act }
{}

/// After no act is anything late for which a set would fail: no volume is held for more than 10,000 ticks, no freeze limit is
/// outrun before PostCommit, and no answer to PrepareBackup or PrepareSnapshot is missing for more than 300,000.
#[tactic(auto, using(crate::proofs::Within::stands_within_limits))]
pub fn nothing_stands_late()
    ensures { (s : Plan) (so_far : List Act) → StandsWithinLimits s so_far }
{}

/// Volumes may be held for 10,000 ticks, an order may stay unanswered for 300,000, writers may stand frozen for 60,000 at most, and each for no
/// longer than its own metadata state.
pub fn limits_are_these_numbers()
    ensures { (s : Plan) (so_far : List Act) → HasItsNumbers s so_far }
{}

/// After no act has an order of Identify, Thaw, PostSnapshot or BackupComplete been open for more than 300,000 ticks.
#[tactic(auto, using(crate::proofs::Within::orders_end))]
pub fn no_order_stays_open()
    ensures { (s : Plan) (so_far : List Act) → OrdersEnd s so_far }
{}

/// An image of context 0 stands only while the session stands that has made its set.
#[tactic(auto, using(crate::proofs::ContextZero::backups_end))]
pub fn backups_end_with_their_session()
    ensures { (s : Plan) (so_far : List Act) → BackupsEnd s so_far }
{}

/// While the agenda of `snapshot` runs, a volume is held from its Hold step to its Release step, and a writer stands frozen from its ok to
/// Freeze until it is heard at Thaw; at no other time is one held or frozen.
#[tactic(auto, using(crate::proofs::Times::stands_still))]
pub fn all_stand_still_as_told()
    ensures { (s : Plan) (so_far : List Act) → StandsStill s so_far }
{}

/// A session call that is not accepted is answered by the code of its cause: who calls, the order, the set in progress, or what it wants.
#[tactic(auto, using(crate::proofs::Refusals::refuses_for_cause))]
pub fn calls_are_refused_for_cause()
    ensures { (s : Plan) (so_far : List Act) (act : Act) → RefusesForCause s so_far act }
{}

/// A writer answers by its script: its nth answer to an order is that of the first row for that order and n.
#[tactic(auto, using(crate::proofs::Scripts::answers_by_script))]
pub fn writers_answer_by_their_scripts()
    ensures { (s : Plan) (trail : List Move) → AnswersByScript s trail }
{}

/// An area keeps a copy of exactly those blocks of its images that were overwritten since their cut, and none twice.
#[tactic(auto, using(crate::proofs::KeptCopies::keeps_copies))]
pub fn areas_keep_what_is_overwritten()
    ensures { (s : Plan) (so_far : List Act) → KeepsCopies s so_far }
{}

/// The component document lists, of the chosen writers, the components that the session has named and those that come with them.
#[tactic(auto, using(crate::proofs::Documents::tells_document))]
pub fn the_document_lists_what_is_chosen()
    ensures { (s : Plan) (so_far : List Act) (act : Act) → TellsDocument s so_far act }
{}

/// Once its agenda has ended and the set has not failed, whoever `gather`, `prepare` or `complete` had to ask was heard, or its answer was
/// lost: each writer of a class that is not disabled at Identify, each that takes part at PrepareBackup, by an ok, and each of these that had
/// not failed at BackupComplete.
#[tactic(auto, using(crate::proofs::Owing::nobody_owes))]
pub fn writers_answer_before_the_session_comes_on()
    ensures { (s : Plan) (so_far : List Act) → NobodyOwes s so_far }
{}

/// Every run is as promised: each act of a trail, and each state on its way.
pub fn every_run_is_as_promised()
    ensures { (s : Plan) (trail : List Move) → IsAsPromised s trail }
{}

/// The headline holds of every legal and complete trail of a scenario within its limits.
#[tactic(auto, using(crate::proofs::Headline::has_headline))]
pub fn every_run_has_the_headline()
    ensures { (s : Plan) (trail : List Move) → IsPlan s → is_legal s trail ≡ true → is_complete s trail ≡ true → Headline s trail }
{}
