ghost use Rattle.std.specs.Prelude.{◌≡◌, ◌≤◌, length, map};
ghost use Rattle.writer_meta.specs.Metadata.{part_of};
ghost use Rattle.component_doc.specs.Selection.{IsAbove};

use crate::ancestors::is_ancestor;
use crate::pair::Pair;
use crate::pairs;
use writer_meta::Component;

/// What stands above the components of one logical path: they have the same ancestors.
#[derive(Clone, Copy, Debug)]
pub(crate) struct Above<'a> {
    /// The logical path of these components.
    path: &'a [u8],
    /// Whether one of their ancestors was named.
    pub(crate) named: bool,
    /// Whether one of their ancestors is selectable.
    pub(crate) selectable: bool,
}

impl<'a> Above<'a> {
    /// What stands above this component.
    pub(crate) fn of(
        pairs: &[Pair],
        writer: u32,
        component: &'a Component,
        components: &[Component],
    ) -> Above<'a>
        requires { length components.now ≤ 1024 }
        ensures path { result.path.now ≡ component.now.path.bytes }
        ensures above { IsAbove pairs.now writer (map part_of components.now) result }
    {
        let mut named = false;
        let mut selectable = false;
        for (i, ancestor) in components.iter().enumerate() {
            let pair = Pair {
                writer,
                component: i as u32,
            };
            if is_ancestor(ancestor, component) {
                named = named || pairs::has(pairs, pair);
                selectable = selectable || ancestor.selectable;
            }
        }
        Above {
            path: component.path.bytes(),
            named,
            selectable,
        }
    }

    /// What stands above this component, which is looked for only if its path is another one.
    pub(crate) fn at(
        self,
        pairs: &[Pair],
        writer: u32,
        component: &'a Component,
        components: &[Component],
    ) -> Above<'a>
        requires few { length components.now ≤ 1024 }
        requires above { IsAbove pairs.now writer (map part_of components.now) self }
        ensures path { result.path.now ≡ component.now.path.bytes }
        ensures above { IsAbove pairs.now writer (map part_of components.now) result }
    {
        if self.path == component.path.bytes() {
            return self;
        }
        Above::of(pairs, writer, component, components)
    }
}
