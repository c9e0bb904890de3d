// The variables of programs for those of trees.
ghost use Rattle.std.specs.Prelude.{◌≡◌};
ghost use Rattle.qc_to_nnrs.specs.inner.Statements as trees;

// Variables of a tree, each with its own of the program, the newest first.
#[derive(Drop)]
pub(crate) enum Names<'a> {
    // No variables.
    Nothing,
    // A variable of the tree, and that of the program.
    Bound(u128, u128, &'a Names<'a>),
}

// The variable of the program for one of the tree, and 0 where there is none.
pub(crate) fn renamed(names: &Names, y: u128) -> u128
    ensures { result ≡ trees.renamed y (trees.renaming_of names.now) }
{
    match names {
        Names::Nothing => 0,
        Names::Bound(bound, variable, outer) => {
            if *bound == y {
                *variable
            } else {
                renamed(outer, y)
            }
        }
    }
}
