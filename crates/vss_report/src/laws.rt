//! What holds for every report: functions that do nothing, whose contracts are the laws.

ghost use Rattle.std.specs.Prelude.{◌≡◌, ◌++◌, ◌∷◌, [], Bool, ℕ, List, All, Ok};
ghost use Rattle.write_history.specs.declared.move_item.Move.{Move};
ghost use Rattle.scenario.specs.Plan.{Plan};
ghost use Rattle.scenario.specs.Bounds.{IsPlan};
ghost use Rattle.scenario.specs.Named.{HasNames};
ghost use Rattle.vss_model.specs.Acts.{Act, state};
ghost use Rattle.vss_model.specs.Trail.{begin, run};
ghost use Rattle.vss_report.specs.Report.{IsMoveText, IsReport, IsReportSoFar, first_line};
ghost use Rattle.vss_report.specs.ToldLines.{all_tell, told_report};
ghost use Rattle.vss_report.specs.ReadBack.{reading_back};
ghost use Rattle.vss_report.specs.Legible.{HasItsCode, IsLegible, IsLegibleMove, AreLegible, IsLegibleTrail};

/// The report of a trail grows by the lines of each move.
pub fn one_more_line()
    ensures none { (s : Plan) (tells : List Bool) → IsReportSoFar s tells [] first_line }
    ensures one { (s : Plan) (tells : List Bool) (trail : List Move) (m : Move) (text own : List ℕ)
        → IsReportSoFar s tells trail text → IsMoveText s tells (run s trail) m own
        → IsReportSoFar s tells (trail ++ m ∷ []) (text ++ own) }
{}

/// Where every device tells its blocks, the report is one text: that text is a report, and each report is that text.
pub fn report_where_all_tell()
    ensures report { (s : Plan) (trail : List Move) → IsReport s (all_tell s) trail (told_report s trail) }
    ensures only { (s : Plan) (trail : List Move) (text : List ℕ) → IsReport s (all_tell s) trail text → text ≡ told_report s trail }
{}

/// A report is read back as the trail that it was made of, whichever devices tell their blocks, where names are words and
/// apart and each move has a form of its own; so a text is the report of one such trail alone.
pub fn report_reads_back()
    ensures read { (s : Plan) (tells : List Bool) (trail : List Move) (text : List ℕ)
        → IsLegible s → IsLegibleTrail s tells trail → IsReport s tells trail text → reading_back s text ≡ Ok trail }
    ensures one { (s : Plan) (tells others : List Bool) (trail other : List Move) (text : List ℕ)
        → IsLegible s → IsLegibleTrail s tells trail → IsLegibleTrail s others other
        → IsReport s tells trail text → IsReport s others other text → trail ≡ other }
{}

/// A scenario within the limits whose names are by the grammar, those of a kind apart, is legible.
pub fn scenarios_are_legible()
    ensures { (s : Plan) → IsPlan s → HasNames s → IsLegible s }
{}

/// A writer that has failed has a code, and no other has one, in every state and after every trail.
pub fn failures_have_codes()
    ensures state { (s : Plan) (acts : List Act) → All HasItsCode (state s acts).course.rows }
    ensures run { (s : Plan) (trail : List Move) → All HasItsCode (run s trail).state.course.rows }
{}

/// The moves of a trail are legible one by one, each where it comes.
pub fn legible_moves_grow()
    ensures { (s : Plan) (tells : List Bool) (trail : List Move) (m : Move)
        → AreLegible s tells (begin s) trail → IsLegibleMove s tells (run s trail) m → AreLegible s tells (begin s) (trail ++ m ∷ []) }
{}
