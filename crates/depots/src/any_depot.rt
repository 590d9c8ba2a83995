// A depot of either kind, as its sheet names it.
ghost use Rattle.std.specs.Prelude.{◌≡◌, MatchResult};
ghost use Rattle.depots.specs.AnyDepots.{AnyRead, AnyTold, names_sight};
ghost use Rattle.depots.specs.Kinds.{meaning_of};
ghost use Rattle.depots.specs.Spelling.{DepotRead, DepotTold};
ghost use Rattle.depots.specs.Tables.{tables_of};

use crate::depot::Depot;
use facts::plain::Plain;
use facts::sight::Sight;
use facts::text_kinds::TextKind;
use sheets::faults::Fault;
use sheets::layout::says_sight;
use sheets::lines::Lines;
use std::alloc::Global;

// A depot of the plain or of the sight kind.
#[derive(Drop)]
pub enum AnyDepot {
    Plain(Depot<Plain>),
    Sight(Depot<Sight>),
}

// Whether line 1 of a sheet names the sight kind.
fn names_sight(sheet: &[u8]) -> bool
    ensures { result ≡ names_sight sheet.now }
{
    Lines::of(sheet)
        .next()
        .is_some_and(|line| says_sight(&line))
}

// Reads a depot sheet of one kind.
fn read_of_kind<K: TextKind>(heap: Global, sheet: &[u8]) -> Result<Depot<K>, Fault>
    ensures { MatchResult result (λ d. DepotRead (meaning_of K.Kind K.reading_under) sheet.now (tables_of d)) (DepotTold (meaning_of K.Kind K.reading_under) sheet.now) }
{
    let mut depot = Depot::empty(heap);
    depot.read(heap, sheet)?;
    Ok(depot)
}

// Reads a depot sheet of either kind; a sheet that is refused leaves no depot.
pub fn read(heap: Global, sheet: &[u8]) -> Result<AnyDepot, Fault>
    ensures { MatchResult result (AnyRead sheet.now) (AnyTold sheet.now) }
{
    if names_sight(sheet) {
        Ok(AnyDepot::Sight(read_of_kind(heap, sheet)?))
    } else {
        Ok(AnyDepot::Plain(read_of_kind(heap, sheet)?))
    }
}
