// Finalization: n, m; n transactions; n decisions (1 Accept, 2 Aborted, 3 any other); m deciding transactions.
ghost use Rattle.std.specs.Prelude.{◌≡◌, true, false, ◌&&◌, ◌<◌, leb, MatchOption};
ghost use Rattle.lists.specs.Lists.{all, has, self as itself};
ghost use Rattle.rules.specs.Words.{finalization_formed, line_count, deciding};
ghost use Rattle.types.specs.Transactions.{number_of};
ghost use Rattle.words.specs.Lines.{IsLine};

use lists::slices::{part, size_at, word_at};
use types::Transaction;

// What a line says of a transaction: its decision code, a number since the match over codes is a form that is kept.
#[derive(Clone, Copy)]
pub struct Line {
    pub tx: Transaction,
    pub code: u64,
}

// The words of a finalization that is well formed.
#[derive(Clone, Copy)]
pub struct Finalization<'a> {
    words: &'a [u64],
    pub ghost formed: { finalization_formed words.now ≡ true },
}

fn all_decisions(s: &[u64]) -> bool
    ensures { result ≡ all (λ d. leb 1 d && leb d 3) s.now }
{
    s.iter().all(|d| 1 <= *d && *d <= 3)
}

#[tactic(auto, using(crate::proofs::Lines::finalization_is))]
fn is_formed(words: &[u64]) -> bool
    ensures { result ≡ finalization_formed words.now }
{
    let n = size_at(words, 0);
    let m = size_at(words, 1);
    2 <= words.len()
        && n <= 48
        && m <= 48
        && words.len() == 2 + n + n + m
        && all_decisions(part(words, 2 + n, n))
}

#[tactic(auto, using(crate::proofs::Lines::finalized, crate::proofs::Lines::deciding_is, crate::proofs::Lines::code_at, crate::proofs::Lines::line_next))]
impl<'a> Finalization<'a> {
    pub fn read(words: &'a [u64]) -> Option<Finalization<'a>>
        ensures { MatchOption result (finalization_formed words.now ≡ false) (λ f. f.words.now ≡ words.now) }
    {
        if is_formed(words) {
            Some(Finalization { words })
        } else {
            None
        }
    }

    // How many lines there are.
    pub fn len(self) -> usize
        ensures { result ≡ line_count self.entry.words.now }
    {
        size_at(self.words, 0)
    }

    // The i-th line.
    pub fn line(self, i: usize) -> Line
        requires { i < line_count self.words.now }
        ensures { IsLine self.entry.words.now i result }
    {
        let n = self.len();
        Line {
            tx: Transaction::read(self.words, 2 + i),
            code: word_at(self.words, 2 + n + i),
        }
    }

    // Whether the transaction is among the deciding.
    pub fn is_deciding(self, tx: Transaction) -> bool
        ensures { result ≡ has itself (number_of tx) (deciding self.entry.words.now) }
    {
        let n = self.len();
        let m = size_at(self.words, 1);
        tx.is_among(part(self.words, 2 + n + n, m))
    }
}
