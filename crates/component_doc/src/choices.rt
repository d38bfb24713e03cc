ghost use Rattle.std.specs.Prelude.{◌≡◌, List};
ghost use Rattle.component_doc.specs.declared.choice.Choice.{Choice};

use crate::choice::Choice;
use std::marker::Model;

/// The components that a backup takes, in order of writers and then of components. Contracts see a list.
#[derive(Debug, Drop)]
pub struct Choices {
    items: Vec<Choice>,
}

impl Model for Choices {
    ghost Value = { List Choice };

    ghost view = { λ c. c.items.items };
}

impl Choices {
    /// These components, without taking memory.
    pub fn of(items: Vec<Choice>) -> Choices
        ensures { result ≡ items.items }
    {
        Choices { items }
    }

    /// The choices, in their order.
    pub fn items(&self) -> &[Choice]
        ensures { result.now ≡ self.now }
    {
        &self.items
    }
}
