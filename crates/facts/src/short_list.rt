// A short list that is kept in place, with no memory of its own, and can be copied, which the library's list with a bound
// cannot.
ghost use Rattle.std.specs.Prelude.{◌≡◌, ◌≤◌, ⊤};

use std::alloc::AllocError;

// Up to N entries in their order. Places past the count hold nothing of note.
pub struct ShortList<T, const N: usize> {
    pub places: [T; N],
    pub count: usize,
    ghost few: { count ≤ N },
}

// Written out, as is `Copy`: over a ghost field neither is derived where there is a type parameter.
impl<T: Copy, const N: usize> Clone for ShortList<T, N> {
    ghost is_clone = { λ old new. new ≡ old };

    ghost is_infallible = { λ _. ⊤ };

    fn clone(&self) -> Result<ShortList<T, N>, AllocError> {
        Ok(*self)
    }
}

impl<T: Copy, const N: usize> Copy for ShortList<T, N> {}

impl<T: Copy, const N: usize> ShortList<T, N> {
    ghost use Rattle.std.specs.Prelude.{◌<◌, [], ◌∷◌, ◌++◌, length, set, MatchResult};
    ghost use Rattle.facts.specs.ShortLists.{entries_of, short_list};

    // No entry. The blank stands in every place.
    pub fn none(blank: T) -> ShortList<T, N>
        ensures whole { result ≡ short_list blank [] }
        ensures entries { entries_of result ≡ [] }
    {
        ShortList {
            places: [blank; N],
            count: 0,
        }
    }

    // The entries, in their order.
    pub fn entries(&self) -> &[T]
        ensures { result.now ≡ entries_of self.now }
    {
        &self.places[..self.count]
    }

    // One entry more behind the others. Where there is no room the list stays, and the entry comes back.
    pub fn push(&mut self, entry: T) -> Result<(), T>
        ensures room { MatchResult result (λ _. (length (entries_of self.old) < N) × (entries_of self.new ≡ entries_of self.old ++ entry ∷ [])) (λ back. (N ≤ length (entries_of self.old)) × (back ≡ entry) × (self.new ≡ self.old)) }
        ensures places { self.new.places ≡ set self.old.places self.old.count entry }
    {
        // No `get_mut`, since of a slice that was written through it a proof knows no element.
        if self.count == N {
            return Err(entry);
        }
        self.places[self.count] = entry;
        self.count += 1;
        Ok(())
    }
}
