// Bundle: n; n kinds; n lengths; the items' words joined. Kinds are 1 terminal, 2 abandonment record, 3 finalization, 4 admission,
// 5 absence.
ghost use Rattle.std.specs.Prelude.{◌≡◌, true, ◌&&◌, ◌+◌, ◌<◌, leb, length, drop, get_or, IfOk};
ghost use Rattle.lists.specs.Lists.{all, part as part_of, total, self as itself};
ghost use Rattle.rules.specs.Words.{item_count, items_at, item_kinds, item_lengths, bundle_whole, bundle_known, bundle_measured};
ghost use Rattle.types.specs.Refusals.{refused_in};
ghost use Rattle.words.specs.Bundle.{form_refusal};

use lists::slices::{adds_up, part, size_at, word_at};
use types::refusal::Refusal;

// The words of a bundle that is well formed.
#[derive(Clone, Copy)]
pub struct Bundle<'a> {
    words: &'a [u64],
    pub ghost formed: { form_refusal words.now ≡ 0 },
}

// At most 64 items are named, and kinds and lengths stand whole.
#[tactic(auto, using(crate::proofs::Bundles::whole_is))]
fn is_whole(words: &[u64]) -> bool
    ensures { result ≡ bundle_whole words.now }
{
    let n = size_at(words, 0);
    !words.is_empty() && n <= 64 && 1 + 2 * n <= words.len()
}

fn all_kinds(s: &[u64]) -> bool
    ensures { result ≡ all (λ k. leb 1 k && leb k 5) s.now }
{
    s.iter().all(|k| 1 <= *k && *k <= 5)
}

// Each item is of one of the five kinds.
#[tactic(auto, using(crate::proofs::Bundles::whole_has), unfolding(rules::specs::Words::bundle_known))]
fn is_known(words: &[u64]) -> bool
    requires { bundle_whole words.now ≡ true }
    ensures { result ≡ bundle_known words.now }
{
    all_kinds(part(words, 1, size_at(words, 0)))
}

// The lengths make up the rest of the words.
#[tactic(auto, using(crate::proofs::Bundles::whole_has, crate::proofs::Bundles::measured_is))]
fn is_measured(words: &[u64]) -> bool
    requires { bundle_whole words.now ≡ true }
    ensures { result ≡ bundle_measured words.now }
{
    let n = size_at(words, 0);
    let rest = words.len() - (1 + 2 * n);
    adds_up(part(words, 1 + n, n), rest)
}

// The words of a bundle, by the table.
#[tactic(auto, unfolding(crate::specs::Bundle::form_refusal))]
fn check(words: &[u64]) -> Result<(), Refusal>
    ensures { refused_in result ≡ form_refusal words.now }
{
    if !is_whole(words) {
        return Err(Refusal::NoBundle);
    }
    if !is_known(words) {
        return Err(Refusal::UnknownKind);
    }
    if !is_measured(words) {
        return Err(Refusal::NoBundle);
    }
    Ok(())
}

#[tactic(auto, using(crate::proofs::Bundles::bundled, crate::proofs::Bundles::kind_word, crate::proofs::Bundles::length_word, crate::proofs::Bundles::item_within))]
impl<'a> Bundle<'a> {
    pub fn read(words: &'a [u64]) -> Result<Bundle<'a>, Refusal>
        ensures refused { refused_in result ≡ form_refusal words.now }
        ensures read { IfOk result (λ b. b.words.now ≡ words.now) }
    {
        check(words)?;
        Ok(Bundle { words })
    }

    // How many items there are.
    pub fn len(self) -> usize
        ensures { result ≡ item_count self.entry.words.now }
    {
        size_at(self.words, 0)
    }

    pub fn kind(self, i: usize) -> u64
        requires { i < item_count self.words.now }
        ensures { result ≡ get_or (item_kinds self.entry.words.now) i 0 }
    {
        word_at(self.words, 1 + i)
    }

    // Where the items' words start.
    pub fn items_at(self) -> usize
        ensures { result ≡ items_at self.entry.words.now }
    {
        1 + 2 * self.len()
    }

    // The words of the i-th item. They start at a place, from which the remaining lengths fill the words.
    pub fn item(self, i: usize, at: usize) -> &'a [u64]
        requires { (i < item_count self.words.now) × (at + total itself (drop i (item_lengths self.words.now)) ≡ length self.words.now) }
        ensures { result.now ≡ part_of at (get_or (item_lengths self.entry.words.now) i 0) self.entry.words.now }
    {
        part(self.words, at, size_at(self.words, 1 + self.len() + i))
    }
}
