// The parts of an admission's words.
ghost use Rattle.std.specs.Prelude.{◌≡◌, MatchOption};
ghost use Rattle.rules.specs.Words.{admission_formed};
ghost use Rattle.words.specs.Admission.{Sized, Split};

use lists::slices::{all_within, lists_rise, part, rises, size_at, total};

// How many of each there are is told before; only of the destinations it is not yet known whether they are as many as the sizes say.
#[derive(Clone, Copy)]
pub struct Parts<'a> {
    pub words: &'a [u64],
    pub routes: &'a [u64],
    pub core: &'a [u64],
    pub ids: &'a [u64],
    pub froms: &'a [u64],
    pub kinds: &'a [u64],
    pub sizes: &'a [u64],
    pub destinations: &'a [u64],
    pub ghost split: { Split words.now routes.now core.now ids.now froms.now kinds.now sizes.now destinations.now },
}

impl<'a> Parts<'a> {
    // None where the sizes that come first are not there or over their limits, or the words do not reach to the destinations.
    pub fn of(words: &'a [u64]) -> Option<Parts<'a>>
        ensures { MatchOption result (Sized words.now → ⊥) (λ p. p.words.now ≡ words.now) }
    {
        let r = size_at(words, 0);
        let c = size_at(words, 1);
        let e = size_at(words, 2);
        if words.len() < 9 || 8 < r || 8 < c || 8 < e {
            return None;
        }
        let core_at = 9 + r;
        let edges_at = core_at + c;
        let at = edges_at + 4 * e;
        if words.len() < at {
            return None;
        }
        Some(Parts {
            words,
            routes: part(words, 9, r),
            core: part(words, core_at, c),
            ids: part(words, edges_at, e),
            froms: part(words, edges_at + e, e),
            kinds: part(words, edges_at + 2 * e, e),
            sizes: part(words, edges_at + 3 * e, e),
            destinations: &words[at..],
        })
    }

    // The sizes are within their limit, the destinations are as many as they say, decomposed and each kind are 0 or 1, and the lists rise.
    pub fn is_formed(self) -> bool
        ensures { result ≡ admission_formed self.entry.words.now }
    {
        all_within(self.sizes, 4)
            && self.destinations.len() == total(self.sizes) as usize
            && self.words[8] <= 1
            && all_within(self.kinds, 1)
            && rises(self.core)
            && lists_rise(self.sizes, self.destinations)
    }
}
