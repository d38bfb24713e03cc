//! What the texts of the generated scenarios are read as, and how every run of one ends: functions that do nothing, whose contracts are the laws.

ghost use Rattle.std.specs.Prelude.{◌≡◌, ◌<◌, ◌++◌, ◌∷◌, [], length, ℕ, List, true};
ghost use Rattle.std.specs.List.{list_all};
ghost use Rattle.write_history.specs.declared.move_item.Move.{Move};
ghost use Rattle.write_history.specs.History.{contents};
ghost use Rattle.scenario.specs.Plan.{Plan};
ghost use Rattle.scenario.specs.Grammar.{reading_of, IsScenario};
ghost use Rattle.vss_model.specs.State.{is_complete as is_complete_set, history_of};
ghost use Rattle.vss_model.specs.Acts.{Act, state};
ghost use Rattle.vss_model.specs.Effects.{evicted};
ghost use Rattle.vss_model.specs.Trail.{acts, is_legal, is_complete, faults};
ghost use Rattle.generated.specs.Scenario.{IsGenerated, plan_of, IsRead};
ghost use Rattle.generated.specs.Smooth.{IsSmooth};
ghost use Rattle.generated.specs.Draws.{volume_at, block_at, stamp_at};
ghost use Rattle.generated.specs.Contents.{EndsWell, final_blocks};
ghost use Rattle.generated.specs.ScenarioText.{gen_text};

/// In a smooth scenario each legal and complete trail without fault marks completes all its sets.
pub fn smooth_runs_complete_their_sets()
    ensures count { (n : ℕ) (s : Plan) (trail : List Move) → IsSmooth n s → is_legal s trail ≡ true → is_complete s trail ≡ true
        → faults trail ≡ 0 → length (state s (acts s trail)).sets ≡ n }
    ensures complete { (n : ℕ) (s : Plan) (trail : List Move) → IsSmooth n s → is_legal s trail ≡ true → is_complete s trail ≡ true
        → faults trail ≡ 0 → list_all (λ r. is_complete_set r.result) (state s (acts s trail)).sets ≡ true }
{}

/// In a smooth scenario no act of a legal trail without fault marks evicts an image.
pub fn smooth_runs_evict_nothing()
    ensures { (n : ℕ) (s : Plan) (trail : List Move) → IsSmooth n s → is_legal s trail ≡ true → faults trail ≡ 0
        → (so_far rest : List Act) (act : Act) → acts s trail ≡ so_far ++ act ∷ rest → evicted s (state s so_far) act.event ≡ [] }
{}

/// A generated scenario is smooth, with four sets.
pub fn generated_is_smooth()
    ensures { (n : ℕ) (s : Plan) → IsGenerated n s → IsSmooth 4 s }
{}

/// Each run of a generated scenario ends with the blocks whose digests its summary has.
pub fn generated_runs_end_in_their_contents()
    ensures { (n : ℕ) (s : Plan) (trail : List Move) → IsGenerated n s → is_legal s trail ≡ true → is_complete s trail ≡ true
        → faults trail ≡ 0 → (v : ℕ) → v < 8
        → contents 256 (history_of (state s (acts s trail)) v).writes (length (history_of (state s (acts s trail)) v).writes) ≡ final_blocks n v }
{}

/// Each legal and complete trail of a generated scenario without fault marks completes its four sets, evicts nothing, keeps
/// each set's image on each volume, and ends with each block as its one lane wrote it last.
pub fn generated_runs_end_well()
    ensures { (n : ℕ) (s : Plan) (trail : List Move) → IsGenerated n s → is_legal s trail ≡ true → is_complete s trail ≡ true
        → faults trail ≡ 0 → EndsWell n s trail }
{}

/// There is a generated scenario of each number.
#[tactic(auto, using(crate::proofs::Generated::plan_is_generated))]
pub fn generated_scenarios_exist()
    ensures { (n : ℕ) → IsGenerated n (plan_of n) }
{}

/// The first and the last write of the second lane for the number 7.
#[tactic(auto, using(crate::proofs::Generated::first_volume, crate::proofs::Generated::first_block, crate::proofs::Generated::first_stamp, crate::proofs::Generated::last_volume, crate::proofs::Generated::last_block))]
pub fn writes_of_seven()
    ensures volume { volume_at 7 1 0 ≡ 1 }
    ensures block { block_at 7 1 0 ≡ 18 }
    ensures stamp { stamp_at 1 0 ≡ 1000000 }
    ensures last_volume { volume_at 7 1 199 ≡ 0 }
    ensures last_block { block_at 7 1 199 ≡ 16 }
{}

/// The text of the generated scenario of a number is a scenario, and whatever scenario it is, it is the generated one of this
/// number. It is short enough for the reader.
pub fn generated_texts_are_read(number: u32)
    ensures read { IsRead number }
    ensures generated { (plan : Plan) → reading_of (gen_text number) ≡ IsScenario plan → IsGenerated number plan }
    ensures short { length (gen_text number) < 4294967295 }
{}

/// Each legal and complete trail without fault marks of the scenario that the text of a number is ends as the generated
/// scenario of this number does.
pub fn generated_texts_run_well(number: u32)
    ensures { (plan : Plan) (trail : List Move) → reading_of (gen_text number) ≡ IsScenario plan → is_legal plan trail ≡ true
        → is_complete plan trail ≡ true → faults trail ≡ 0 → EndsWell number plan trail }
{}
