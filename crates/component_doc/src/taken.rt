ghost use Rattle.std.specs.Prelude.{◌≡◌, ◌↔◌, ◌<◌, ◌^◌, length, IfOk, IsTrue};
ghost use Rattle.component_doc.specs.Over.{metas_of, selected_of, is_named, IsSelectedOver};
ghost use Rattle.component_doc.specs.Selection.{is_taker};

use crate::metas::Metas;
use crate::pair::Pair;
use crate::pairs;
use std::alloc::Global;
use vss_names::OutOfMemory;

/// What a selection takes.
#[derive(Debug, Drop)]
pub(crate) enum Taken {
    /// The components that were named, in order of writers and then of components.
    Named(Vec<Pair>),
    /// All components of these writers.
    AllOf(Vec<u32>),
}

impl Taken {
    /// Whether components are named one by one.
    pub(crate) fn is_named(&self) -> bool
        ensures { result ≡ is_named (selected_of self.now) }
    {
        match self {
            Taken::Named(_) => true,
            Taken::AllOf(_) => false,
        }
    }

    /// Whether it is so over these metadata.
    pub(crate) fn is_over(&self, alloc: Global, metas: &Metas) -> Result<bool, OutOfMemory>
        requires { length metas.now < 2 ^ 32 }
        ensures { IfOk result (λ is_over. IsTrue is_over ↔ IsSelectedOver (metas_of metas.now) (selected_of self.now)) }
    {
        match self {
            Taken::Named(named) => Ok(pairs::are_over(named, metas)),
            Taken::AllOf(writers) => {
                let known = metas.known(alloc)?;
                Ok(are_same(writers, &known))
            }
        }
    }

    /// Whether a writer takes part.
    pub(crate) fn takes(&self, writer: u32) -> bool
        ensures { result ≡ is_taker (selected_of self.now) writer }
    {
        match self {
            Taken::Named(pairs) => pairs::has_writer(pairs, writer),
            Taken::AllOf(writers) => writers.contains(&writer),
        }
    }
}

fn are_same(writers: &[u32], others: &[u32]) -> bool
    ensures { IsTrue result ↔ (writers.now ≡ others.now) }
{
    writers == others
}
