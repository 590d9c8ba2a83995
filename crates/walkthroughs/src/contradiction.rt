// Whether a step contradicts itself: the lowest setting and strike that do.
ghost use Rattle.std.specs.Prelude.{◌≡◌, ◌+◌, ◌<◌, ◌^◌};
ghost use Rattle.depots.specs.Tables.{effect_of};
ghost use Rattle.walkthroughs.specs.Firing.{any};
ghost use Rattle.walkthroughs.specs.Moments.{at, depot_of};
ghost use Rattle.walkthroughs.specs.Outcomes.{AreOutcomes};
ghost use Rattle.walkthroughs.specs.Searching.{Contradicts, FindsLowest, LowestBy, PassesAt, PassesIn, is_carried, is_removed, row_of_contradiction, sets_removed, strikes_carried};

use crate::firing::Outcome;
use crate::moment::Moment;
use depots::depot::Effect;
use facts::kinds::Kind;
use formulas::truth::stands;

// A setting that carries a strike, both of effects that fire: the place of each in the step, and the effect's number in its
// move.
#[derive(Clone, Copy)]
pub(crate) struct Contradiction {
    pub(crate) setting_place: usize,
    pub(crate) setting_effect: usize,
    pub(crate) strike_place: usize,
    pub(crate) strike_effect: usize,
}

// An effect of a step: the place of its move, its number there, and itself.
#[derive(Clone, Copy)]
struct Placed<'a> {
    place: usize,
    number: usize,
    effect: &'a Effect,
}

// Whether some move of a step removes a fact.
fn is_removed(outcomes: &[Outcome], fact: usize) -> bool
    ensures { result ≡ is_removed outcomes.now fact }
{
    outcomes
        .iter()
        .any(|outcome| stands(&outcome.removes, fact))
}

// Whether some move of a step removes one of some facts.
fn some_removed(outcomes: &[Outcome], facts: &[usize]) -> bool
    ensures { result ≡ any (is_removed outcomes.now) facts.now }
{
    facts.iter().any(|&fact| is_removed(outcomes, fact))
}

impl<K: Kind> Moment<'_, K> {
    // Whether one fact carries another, by number.
    fn carries(&self, number: usize, other: usize) -> bool
        ensures { result ≡ (depot_of self.now).carries number other }
    {
        self.depot
            .fact_at(number)
            .zip(self.depot.fact_at(other))
            .is_some_and(|(fact, other)| K::carries(fact, other))
    }

    // Whether one of some settings carries a strike.
    fn is_carried(&self, settings: &[usize], strike: usize) -> bool
        ensures { result ≡ is_carried (depot_of self.now) settings.now strike }
    {
        settings
            .iter()
            .any(|&setting| self.carries(setting, strike))
    }

    // Whether one of some settings carries one of some strikes.
    fn some_carried(&self, settings: &[usize], strikes: &[usize]) -> bool
        ensures { result ≡ any (is_carried (depot_of self.now) settings.now) strikes.now }
    {
        strikes
            .iter()
            .any(|&strike| self.is_carried(settings, strike))
    }

    // Whether an effect fires and sets a fact that some move removes. The condition is read last: to look settings up is
    // cheaper.
    fn sets_removed(&self, outcomes: &[Outcome], effect: &Effect) -> bool
        ensures { result ≡ at self.now sets_removed outcomes.now (effect_of effect.now) }
    {
        some_removed(outcomes, effect.settings()) && self.is_true(effect.condition())
    }

    // Whether an effect fires and strikes a fact that one of some settings carries.
    fn strikes_carried(&self, settings: &[usize], effect: &Effect) -> bool
        ensures { result ≡ at self.now strikes_carried settings.now (effect_of effect.now) }
    {
        self.is_true(effect.condition()) && self.some_carried(settings, effect.strikes())
    }

    // The first effect of the move at a place that passes a test.
    fn effect_in<T: Fn(&Effect) -> bool>(
        &self,
        place: usize,
        number: usize,
        test: &T,
    ) -> Option<Placed<'_>>
        requires { T.IsAlwaysCallable test.now }
        ensures { FindsLowest (λ e b. T.post test.now e b) (PassesIn (depot_of self.now) place number) result }
    {
        self.depot.effects_of(number).iter().enumerate().find_map(|(i, effect)| {
            test(effect).then_some(Placed {
                place,
                number: i + 1,
                effect,
            })
        })
    }

    // The lowest effect of a step's moves that passes a test: the lowest place that has one, and the first there.
    fn first_effect<T: Fn(&Effect) -> bool>(&self, moves: &[usize], test: T) -> Option<Placed<'_>>
        requires { T.IsAlwaysCallable test }
        ensures { FindsLowest (λ e b. T.post test e b) (PassesAt (depot_of self.now) moves.now) result }
    {
        // The closure says what it gives, since that is not inferred of one that passes a test on.
        moves.iter().enumerate().find_map(
            |(i, &m)|
                requires fits { i + 1 < 2 ^ 64 }
                requires callable { T.IsAlwaysCallable test }
                ensures { FindsLowest (λ e b. T.post test e b) (PassesIn (depot_of self.entry.now) (i + 1) m) result }
            { self.effect_in(i + 1, m, &test) },
        )
    }

    // The lowest contradiction of a step.
    pub(crate) fn contradiction(
        &self,
        moves: &[usize],
        outcomes: &[Outcome],
    ) -> Option<Contradiction>
        requires { at self.now AreOutcomes moves.now outcomes.now }
        ensures { LowestBy row_of_contradiction (at self.now Contradicts moves.now) result }
    {
        // What the moves remove is known by now, so settings and strikes are compared only where one carries another.
        let setting = self.first_effect(moves, |effect| self.sets_removed(outcomes, effect))?;
        let settings = setting.effect.settings();
        let strike = self.first_effect(moves, |effect| self.strikes_carried(settings, effect))?;
        Some(Contradiction {
            setting_place: setting.place,
            setting_effect: setting.number,
            strike_place: strike.place,
            strike_effect: strike.number,
        })
    }
}
