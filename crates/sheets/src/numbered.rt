// The entries of a table, which are numbered from 1. Numbers are plain ones, as a caller brings them.
ghost use Rattle.std.specs.Prelude.{◌≡◌};
ghost use Rattle.std.specs.Option.{option_map};
ghost use Rattle.sheets.specs.Numbered.{entry_at};

// The entry with a number, counted from 1, if there is one.
pub fn entry_at<T>(entries: &[T], number: usize) -> Option<&T>
    ensures { option_map (λ x. x.now) result ≡ entry_at entries.now number }
{
    entries.get(number.checked_sub(1)?)
}
