// Marks by the numbers of listed facts.
ghost use Rattle.std.specs.Prelude.{◌≡◌, ℕ, Bool, ◌||◌};
ghost use Rattle.depots.specs.Tables.{tables_of};
ghost use Rattle.formulas.specs.Truth.{stands_in};
ghost use Rattle.walkthroughs.specs.Firing.{any};
ghost use Rattle.walkthroughs.specs.Kinds.{MarksBy, carries_among};

use crate::marks::Row;
use depots::depot::Depot;
use facts::kinds::Kind;

// Marks what `mark` marks by each listed fact of some numbers.
pub(crate) fn mark_by<K: Kind, M: Fn(&K::Fact, &mut Row)>(
    depot: &Depot<K>,
    numbers: &[usize],
    mark: M,
    row: &mut Row,
)
    requires { M.IsAlwaysCallable mark }
    ensures { (by : K.Fact → K.Fact → Bool) → MarksBy by (tables_of depot.now).facts (λ fact marks after. M.post mark fact marks tt after) → (f : ℕ) → stands_in row.new f ≡ (stands_in row.old f || any (λ g. carries_among by (tables_of depot.now).facts g f) numbers.now) }
{
    // Not over `filter_map`: of such a loop, in a function with a type parameter, the check refuses a module that it made
    // itself.
    for number in numbers {
        if let Some(fact) = depot.fact_at(*number) {
            mark(fact, row);
        }
    }
}
