//! Copies of trees that hold the numbers of their words.

ghost use Rattle.std.specs.Prelude.{◌≡◌, IfOk};

use crate::NoMemory;
use crate::counted::CountedTree;
use derivation::Tree;

impl CountedTree {
    ghost use Rattle.std.specs.Prelude.{◌≡◌, IfOk};
    ghost use Rattle.derivation.specs.Counted.{IsCounted};
    ghost use Rattle.derivation.specs.Views.{derivation_of};

    /// A tree that is known to hold the numbers of its words.
    pub fn of(tree: Tree) -> CountedTree
        requires { IsCounted tree }
        ensures { result.tree ≡ tree }
    {
        CountedTree { tree }
    }

    /// The same tree once more; it shares what stands below the outermost node.
    pub fn copy(&self) -> Result<CountedTree, NoMemory>
        ensures { IfOk result (λ c. derivation_of c.tree ≡ derivation_of self.now.tree) }
    {
        let tree = self.tree.copy()?;
        Ok(CountedTree::of(tree))
    }
}
