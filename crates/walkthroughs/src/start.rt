// The facts at the start of a depot.
ghost use Rattle.std.specs.Prelude.{◌≡◌};
ghost use Rattle.depots.specs.Tables.{tables_of};
ghost use Rattle.formulas.specs.Truth.{stands_in};
ghost use Rattle.walkthroughs.specs.Firing.{start_of};
ghost use Rattle.walkthroughs.specs.Ruled.{ruled};

use crate::by_number::mark_by;
use crate::marks::{Row, unmarked};
use depots::depot::Depot;
use facts::added_marks::add_carried;
use facts::kinds::Kind;

// The started facts, and every listed fact that they carry.
pub(crate) fn started<K: Kind>(depot: &Depot<K>) -> Row
    ensures { stands_in result ≡ start_of (ruled K.carrying (tables_of depot.now)) }
{
    let facts = depot.facts();
    let mut row = unmarked();
    mark_by(
        depot,
        depot.started(),
        |fact, row| add_carried::<K>(facts, fact, row),
        &mut row,
    );
    row
}
