// The checks of a table's row: its parent, its children, and whether a row before has named one of them.
#![tactic(auto)]

ghost use Rattle.std.specs.Prelude.{◌≡◌, ◌<◌, MatchResult, false, ltb, length, get_or, set, true};
ghost use Rattle.row_checks.specs.Verdict.{placed};
ghost use Rattle.row_checks.specs.Misplaced.{misplacement};
ghost use Rattle.row_checks.specs.Mark.{mark};

/// What stands for the name of a node that a row has named as a child. It is no Option, since names are numbers of 16 bits, and one sum tells of
/// both children whether a mark is among them.
pub const MARK: u16 = 65535;

/// The first row of a table that is refused: for its parent, for a child that is not below its parent, or for a child that was named
/// before.
#[derive(Clone, Copy)]
pub enum RowFault {
    Parent(usize),
    Child(usize),
    NamedBefore(usize),
}

/// Is row t, whose parent must be p, refused for its numbers?
pub fn check_numbers(t: usize, p: usize, l: usize, r: usize, parent: usize) -> Result<(), RowFault>
    ensures { MatchResult result (λ _. ltb 0 (placed p (l, r, parent)) ≡ false)
        (λ f. (ltb 0 (placed p (l, r, parent)) ≡ true) × (f ≡ misplacement p parent t)) }
{
    if parent != p {
        return Err(RowFault::Parent(t));
    }
    if p <= l || p <= r {
        return Err(RowFault::Child(t));
    }
    Ok(())
}

/// The name of node c, or MARK where a row has named it as a child: from now on this one has.
pub fn take_name(names: &mut [u16], c: usize) -> usize
    requires { c < length names.old }
    ensures { (result ≡ get_or names.old c 0) × (names.new ≡ set names.old c mark) }
{
    let x = usize::from(names[c]);
    names[c] = MARK;
    x
}
