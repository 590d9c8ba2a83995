// How the text of a sight fact is read: its form first, then who and what it names.
ghost use Rattle.std.specs.Prelude.{◌≡◌, ◌≤◌, [], ◌∷◌, ◌++◌, map, length};
ghost use Rattle.std.specs.List.{list_all};
ghost use Rattle.std.specs.Option.{ok_or, option_map};
ghost use Rattle.sheets.specs.Pieces.{following};
ghost use Rattle.facts.specs.declared.names.NoFact.TheVariants.{NotListed};
ghost use Rattle.facts.specs.Parts.{parts_of, is_watcher, fitting, formed, watcher_of, watchers_named};
ghost use Rattle.facts.specs.Sight.{watcher_list, sight_reading};
ghost use Rattle.facts.specs.Texts.{zones_of, matters_of};

use crate::names::{Names, NoFact};
use crate::short_list::ShortList;
use crate::sighted::{MOST_WATCHERS, SightFact, Watcher};
use sheets::listed::Name;
use sheets::{listed, names, pieces};

const FULL_STOP: u8 = b'.';

// The text of the watchers' parts, if there are any, and the part of the matter, which is the last.
fn cut_last(text: &[u8]) -> (Option<&[u8]>, &[u8])
    ensures { parts_of text.now ≡ following 46 (option_map (λ before. before.now) result.0) ++ result.1.now ∷ [] }
{
    let mut halves = text.rsplitn(2, |b| *b == FULL_STOP);
    let matter = halves.next().unwrap_or(text);
    (halves.next(), matter)
}

fn is_watcher(part: &[u8]) -> bool
    ensures { result ≡ is_watcher part.now }
{
    names::is_all(part) || names::is_name(part)
}

// Whether each part of a text is a watcher's.
fn are_watchers(text: &[u8]) -> bool
    ensures { result ≡ list_all is_watcher (parts_of text.now) }
{
    text.split(|b| *b == FULL_STOP).all(is_watcher)
}

// Whether every part but the last is a watcher's and the last has the form of a name.
fn parts_fit(text: &[u8]) -> bool
    ensures { result ≡ fitting (parts_of text.now) }
{
    let (watchers, matter) = cut_last(text);
    watchers.is_none_or(are_watchers) && names::is_name(matter)
}

fn has_form(text: &[u8]) -> bool
    ensures { result ≡ formed (parts_of text.now) }
{
    pieces::has_at_most(text, FULL_STOP, MOST_WATCHERS + 1) && parts_fit(text)
}

fn listed_watcher(zones: &[Name], part: &[u8]) -> Result<Watcher, NoFact>
    ensures { result ≡ ok_or (watcher_of zones.now part.now) NotListed }
{
    if names::is_all(part) {
        return Ok(Watcher::All);
    }
    listed::find(zones, part)
        .map(Watcher::Zone)
        .ok_or(NoFact::NotListed)
}

// The watchers that the parts of a text name, if there is one, unless a zone is not listed.
fn listed_watchers(
    zones: &[Name],
    text: Option<&[u8]>,
) -> Result<ShortList<Watcher, MOST_WATCHERS>, NoFact>
    requires { length (following 46 (option_map (λ text. text.now) text)) ≤ 5 }
    ensures { result ≡ ok_or (option_map watcher_list (watchers_named zones.now (following 46 (option_map (λ text. text.now) text.entry)))) NotListed }
{
    let mut watchers = ShortList::none(Watcher::All);
    let Some(text) = text else {
        return Ok(watchers);
    };
    for part in text.split(|b| *b == FULL_STOP) {
        watchers.push(listed_watcher(zones, part)?).unwrap();
    }
    Ok(watchers)
}

// The fact that a text is. Its form is judged whole before any name in it is looked up.
pub fn read(names: &Names, text: &[u8]) -> Result<SightFact, NoFact>
    ensures { result ≡ sight_reading (zones_of names.now) (matters_of names.now) text.now }
{
    if !has_form(text) {
        return Err(NoFact::NotItsForm);
    }
    let (watchers, matter) = cut_last(text);
    let watchers = listed_watchers(&names.zones, watchers)?;
    let matter = listed::find(&names.matters, matter).ok_or(NoFact::NotListed)?;
    Ok(SightFact { watchers, matter })
}
