// Lists of watchers: what carries what, and when they say what is true anyway.
ghost use Rattle.std.specs.Prelude.{◌≡◌, ◌||◌};
ghost use Rattle.facts.specs.Watchers.{same_watcher, above, carries_jointly, carries_by, is_every, idle};

use crate::sighted::Watcher;

// Whether the watchers are one or more and then these last ones.
fn ends_above(watchers: &[Watcher], last: &[Watcher]) -> bool
    ensures { result ≡ above last.now watchers.now }
{
    watchers.len() > last.len() && watchers.ends_with(last)
}

// Whether a is `all` and then what b has one or more watchers before.
fn carries_jointly(a: &[Watcher], b: &[Watcher]) -> bool
    ensures { result ≡ carries_jointly a.now b.now }
{
    match a {
        [Watcher::All, rest @ ..] => ends_above(b, rest),
        _ => false,
    }
}

// Whether a fact with the watchers a carries the fact of the same matter with the watchers b.
pub fn carries_by(a: &[Watcher], b: &[Watcher]) -> bool
    ensures { result ≡ carries_by a.now b.now }
{
    a == b || carries_jointly(a, b)
}

// Whether a watcher after another adds nothing: it is `all`, or the same zone again.
fn adds_nothing(before: Watcher, watcher: Watcher) -> bool
    ensures { result ≡ (is_every watcher || same_watcher before watcher) }
{
    watcher == Watcher::All || watcher == before
}

// Whether some watcher adds nothing to the one before it.
pub fn is_idle(watchers: &[Watcher]) -> bool
    ensures { result ≡ idle watchers.now }
{
    watchers
        .array_windows::<2>()
        .any(|[before, watcher]| adds_nothing(*before, *watcher))
}
