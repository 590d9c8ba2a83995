// A row of marks, one for each of some facts.
ghost use Rattle.std.specs.Prelude.{◌≡◌, Bool};
ghost use Rattle.facts.specs.Listed.{remarked};

// Settles the mark of each fact anew, by the mark and the fact, as far as the row reaches; the rest of the row stays.
pub(crate) fn remark<F, M: Fn(bool, &F) -> bool>(facts: &[F], row: &mut [bool], mark: M)
    requires { M.IsAlwaysCallable mark }
    ensures { (settle : Bool → F → Bool) → ((b : _) (f : _) (r : _) → M.post mark b f r → r ≡ settle b f.now) → row.new ≡ remarked settle facts.now row.old }
{
    // By the place, since of a `zip` with the row a proof knows no more than how long the row is; and no further than the
    // shorter of the two.
    for i in 0..facts.len().min(row.len()) {
        row[i] = mark(row[i], &facts[i]);
    }
}
