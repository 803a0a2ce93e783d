// Admission: r, c, e; transaction, at, end, anchor, charge, decomposed; r routes; c core shards; e ids, e from-shards, e kinds,
// e destination sizes; destinations joined.
ghost use Rattle.std.specs.Prelude.{◌≡◌, true, false, MatchOption, eqb};
ghost use Rattle.rules.specs.Words.{decomposed, admission_terms, admission_formed, admission_timed, admission_placed};
ghost use Rattle.rules.specs.Entries.{whole_terms, admitted};
ghost use Rattle.entry.specs.Entry.{plain_part, plain_entry, Means};
ghost use Rattle.types.specs.Transactions.{number_of};
ghost use Rattle.words.specs.Taken.{part_in, with_terms};

use crate::layout::Parts;
use crate::shards::all_shards;
use crate::taken::bare;
use entry::{Certificate, Entry, Part};
use lists::slices::{bytes, contains, front, word_at};
use types::{Shard, Transaction, is_time};

// The words of an admission that is well formed.
#[derive(Clone, Copy)]
pub struct Admission<'a> {
    parts: Parts<'a>,
    pub ghost formed: { admission_formed parts.words.now ≡ true },
}

// Answered for any words, formed or not: those past the end read as 0.
#[tactic(auto, unfolding(rules::specs::Words::admission_timed))]
pub fn admission_timed(words: &[u64]) -> bool
    ensures { result ≡ admission_timed words.now }
{
    is_time(word_at(words, 4)) && is_time(word_at(words, 5)) && is_time(word_at(words, 6))
}

#[tactic(auto, unfolding(rules::specs::Words::admission_terms))]
pub fn admission_transaction(words: &[u64]) -> Transaction
    ensures { number_of result ≡ (admission_terms words.now).transaction }
{
    Transaction::read(words, 3)
}

#[tactic(auto, using(crate::proofs::Forms::not_sized), unfolding(rules::specs::Words::admission_placed))]
impl<'a> Admission<'a> {
    pub fn read(words: &'a [u64]) -> Option<Admission<'a>>
        ensures { MatchOption result (admission_formed words.now ≡ false) (λ a. a.parts.words.now ≡ words.now) }
    {
        let parts = Parts::of(words)?;
        if parts.is_formed() {
            Some(Admission { parts })
        } else {
            None
        }
    }

    pub fn is_timed(self) -> bool
        ensures { result ≡ admission_timed self.entry.parts.words.now }
    {
        admission_timed(self.parts.words)
    }

    pub fn is_placed(self) -> bool
        ensures { result ≡ admission_placed self.entry.parts.words.now }
    {
        let p = self.parts;
        all_shards(p.core) && all_shards(p.froms) && all_shards(p.destinations)
    }

    pub fn transaction(self) -> Transaction
        ensures { number_of result ≡ (admission_terms self.entry.parts.words.now).transaction }
    {
        admission_transaction(self.parts.words)
    }

    // Whether it is not decomposed.
    fn is_whole(self) -> bool
        ensures { result ≡ eqb (decomposed self.entry.parts.words.now) 0 }
    {
        word_at(self.parts.words, 8) == 0
    }

    // Whole unless decomposed; then core if local is a core shard, else leg.
    fn part(self, local: Shard) -> Part
        ensures { plain_part result ≡ part_in local.0 self.entry.parts.words.now }
    {
        if self.is_whole() {
            Part::Whole
        } else if contains(self.parts.core, local.0) {
            Part::Core
        } else {
            Part::Leg
        }
    }

    // The entry with the core shards and the edges.
    fn with_edges(self, e: Entry) -> Entry
        requires { (plain_entry e).terms ≡ whole_terms (admission_terms self.parts.words.now) }
        ensures { Means (with_terms (admission_terms self.entry.parts.words.now) (plain_entry e)) result }
    {
        let p = self.parts;
        let core = front(p.core);
        let ids = front(p.ids);
        let froms = front(p.froms);
        let kinds = bytes(p.kinds);
        let sizes = bytes(p.sizes);
        let to = front(p.destinations);
        let mut r = e;
        r.core = core;
        r.ids = ids;
        r.froms = froms;
        r.kinds = kinds;
        r.sizes = sizes;
        r.to = to;
        r.core_len = p.core.len() as u8;
        r.edges_len = p.ids.len() as u8;
        r
    }

    // The entry that it takes in.
    pub fn entry(self, local: Shard) -> Entry
        ensures { Means (admitted local.0 self.entry.parts.words.now) result }
    {
        let p = self.parts;
        let part = self.part(local);
        let e = bare(p.words, 3, p.routes, part, Certificate::Missing, Shard(0));
        if self.is_whole() {
            e
        } else {
            self.with_edges(e)
        }
    }
}
