// Sets of the places of a step, by number.
ghost use Rattle.std.specs.Prelude.{◌≡◌, ◌<◌};
ghost use Rattle.walkthroughs.specs.Sets.{in_set};

// Whether a place, counted from 1, is in the set with a number. One past the digits of a number is in no set.
pub(crate) fn in_set(set: usize, place: usize) -> bool
    requires { 0 < place }
    ensures { result ≡ in_set set place }
{
    u32::try_from(place - 1).is_ok_and(|before| set.unbounded_shr(before) % 2 == 1)
}
