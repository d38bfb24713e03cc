//! What a sum finds: functions that do nothing, whose contracts are the laws.

ghost use Rattle.std.specs.Prelude.{ℕ, List, ◌≡◌, ◌≢◌, ◌<◌, ◌⊎◌};
ghost use Rattle.image_folder.specs.KeptSums.{number_at, sum_of};

/// Blocks of which one or two numbers of four bytes differ, and no other, have different sums.
pub fn two_changed_numbers_are_found()
    ensures { (xs ys : List ℕ) (j k : ℕ) → j < k → k < 4096
        → ((n : ℕ) → n ≢ j → n ≢ k → number_at n xs ≡ number_at n ys)
        → (number_at j xs ≢ number_at j ys) ⊎ (number_at k xs ≢ number_at k ys)
        → sum_of xs ≢ sum_of ys }
{}
