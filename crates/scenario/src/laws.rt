//! What holds of every text: functions that do nothing, whose contracts are the laws.
ghost use Rattle.std.specs.Prelude.{◌≡◌, ℕ, List, Some};
ghost use Rattle.scenario.specs.declared.word.Word.{Word};
ghost use Rattle.scenario.specs.Plan.{Plan};
ghost use Rattle.scenario.specs.Named.{HasNames};
ghost use Rattle.scenario.specs.Grammar.{reading_of, IsScenario};
ghost use Rattle.scenario.specs.Words.{name_of, word_of};

/// Each scenario has names by the grammar, those of volumes, of writers and of lanes apart, and its lines are numbered by the lines of
/// its text.
pub fn scenarios_have_names()
    ensures { (text : List ℕ) (s : Plan) → reading_of text ≡ IsScenario s → HasNames s }
{}

/// Each word is among those that are read: none is forgotten in the list of all words.
pub fn all_words_are_read()
    ensures { (word : Word) → word_of (name_of word) ≡ Some word }
{}
