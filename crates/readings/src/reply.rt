// Words written into a lent list.
ghost use Rattle.readings.specs.Reads.{Lists};

use types::refusal::Refusal;

// Words, which are so many items, written to the front of lent.
pub fn list(words: &[u64], items: usize, lent: &mut [u64]) -> Result<u64, Refusal>
    ensures { Lists words.now items lent.old lent.new result }
{
    let n = words.len();
    if lent.len() < n {
        return Err(Refusal::ListShort);
    }
    lent[..n].copy_from_slice(words);
    Ok(items as u64)
}
