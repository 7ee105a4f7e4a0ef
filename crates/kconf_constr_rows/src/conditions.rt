use crate::answers::formulas_of;
use std::alloc::Global;
use std::test::Fail;
use test_texts::{check_lines, tree_of};

/// A bool, a tristate, a number and the modules symbol.
const TREE: &str =
    "config M\n bool \"m\"\n modules\nconfig A\n tristate \"a\"\nconfig S\n int \"s\"";

/// One condition of each kind, with that it isn't n and that it is y.
const CONDITIONS: &str = "
n => no no
m => y0 no
y => yes yes
M => y0 y0
A => (y1|m1) y1
S => no no
Z => no no
$(X) => no no
!A => !y1 !(y1|m1)
A && M => ((y1|m1)&y0) (y1&y0)
A || M => ((y1|m1)|y0) (y1|y0)
A = n => !(y1|m1) !(y1|m1)
A != m => !((y1|m1)&!y1) !((y1|m1)&!y1)
";

#[test]
fn conditions_have_two_formulas(rt: HostRuntime) -> Result<(), Fail> {
    let tree = tree_of(rt.alloc(), TREE)?;
    let answer = |alloc: Global, condition: &str| formulas_of(alloc, &tree, condition);
    check_lines(rt.alloc(), CONDITIONS, answer)
}
