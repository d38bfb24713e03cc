//! What holds of every order that is drawn: a function that does nothing, whose contract is the law.

ghost use Rattle.std.specs.Prelude.{ℕ, ◌≡◌, List, [], true};
ghost use Rattle.write_history.specs.declared.move_item.Move.{Move};
ghost use Rattle.scenario.specs.Plan.{Plan};
ghost use Rattle.vss_model.specs.Trail.{is_complete, faults};
ghost use Rattle.orders.specs.Drawn.{AreDrawn};

/// The order that a number draws is a function of the number and of the scenario: two complete trails that it draws are one, where no
/// device failed.
pub fn a_number_draws_one_trail()
    ensures { (s : Plan) (number : ℕ) (one other : List Move) → AreDrawn s number [] one → AreDrawn s number [] other
        → faults one ≡ 0 → faults other ≡ 0 → is_complete s one ≡ true → is_complete s other ≡ true → one ≡ other }
{}
