// Tokens of a line.
ghost use Rattle.std.specs.Prelude.{◌≡◌, ◌≤◌, ◌<◌, [], ◌∷◌, length, take, drop, IfSome, MatchOption};
ghost use Rattle.script.specs.Grammar.{up_to, word_length, behind};

// How many bytes stand before it, or all where it is not there.
pub fn before(byte: u8, text: &[u8]) -> usize
    ensures { (result ≤ length text.now) × (result ≡ up_to byte text.now) }
{
    text.iter().take_while(|b| **b != byte).count()
}

// The first token, and what stands from its end on: a space and more, or nothing.
pub fn cut(text: &[u8]) -> (&[u8], &[u8])
    ensures token { result.0.now ≡ take (word_length text.now) text.now }
    ensures rest { result.1.now ≡ drop (word_length text.now) text.now }
{
    text.split_at(before(b' ', text))
}

// The token behind the space with which a text begins, and what stands from its end on; none where the text is empty.
#[tactic(auto, using(crate::proofs::Grammar::next_shorter, crate::proofs::Grammar::behind_none))]
pub fn next(text: &[u8]) -> Option<(&[u8], &[u8])>
    ensures token { MatchOption result (behind text.now ≡ []) (λ p. behind text.now ≡ p.0.now ∷ behind p.1.now) }
    ensures shorter { IfSome result (λ p. length p.1.now < length text.now) }
{
    let (_, behind) = text.split_first()?;
    Some(cut(behind))
}
