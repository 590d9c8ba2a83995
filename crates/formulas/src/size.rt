// How large a formula is.
ghost use Rattle.std.specs.Prelude.{◌≡◌, ◌+◌, ◌-◌, ◌^◌, min};
ghost use Rattle.formulas.specs.Shapes.{texted};
ghost use Rattle.formulas.specs.Spelling.{size_of};

use crate::tree::Formula;

// The facts, `!` marks and pairs of brackets, as far as a number reaches. A formula that was read is no larger than its text.
pub fn size(formula: &Formula<&[u8]>) -> usize
    ensures { result ≡ min (size_of (texted formula.now)) (2 ^ 64 - 1) }
{
    match formula {
        Formula::Fact(_) => 1,
        Formula::Not(inner) => size(inner).saturating_add(1),
        Formula::All(inner) => inner.iter().fold(
            1,
            |all, one|
                ensures { result ≡ min (all + size_of (texted one.now)) (2 ^ 64 - 1) }
            { all.saturating_add(size(one)) },
        ),
    }
}
