// Slices of words: a word, a part, tests of each number, sums and copies. Most are one call of the library's, with the rules' own word for it
// in the contract.
ghost use Rattle.std.specs.Prelude.{◌≡◌, true, ◌+◌, ◌≤◌, eqb, leb, length, take, drop, get_or};
ghost use Rattle.lists.specs.Lists.{all, has, ascending, total, self, part, cut};

// The word at a place, 0 past the end.
pub fn word_at(s: &[u64], i: usize) -> u64
    ensures { result ≡ get_or s.now i 0 }
{
    s.get(i).copied().unwrap_or(0)
}

pub fn size_at(s: &[u64], i: usize) -> usize
    ensures { result ≡ get_or s.now i 0 }
{
    word_at(s, i) as usize
}

pub fn part(s: &[u64], from: usize, n: usize) -> &[u64]
    requires { from + n ≤ length s.now }
    ensures { result.now ≡ part from n s.now }
{
    &s[from..][..n]
}

// The words from a place on, none where there are not so many.
pub fn words_behind(s: &[u64], from: usize) -> &[u64]
    ensures { result.now ≡ drop from s.now }
{
    s.get(from..).unwrap_or(&[])
}

pub fn all_within(s: &[u64], limit: u64) -> bool
    ensures { result ≡ all (λ n. leb n limit) s.now }
{
    s.iter().all(|n| *n <= limit)
}

pub fn contains(s: &[u64], n: u64) -> bool
    ensures { result ≡ has self n s.now }
{
    s.contains(&n)
}

pub fn total(s: &[u64]) -> u64
    requires { total self s.now ≤ 384 }
    ensures { result ≡ total self s.now }
{
    s.iter().sum()
}

// Whether the numbers, any words, add up to n: nothing wraps.
pub fn adds_up(s: &[u64], n: usize) -> bool
    ensures { result ≡ eqb n (total self s.now) }
{
    let mut rest = n as u64;
    for k in s {
        let Some(less) = rest.checked_sub(*k) else {
            return false;
        };
        rest = less;
    }
    rest == 0
}

// Whether each number is above the one before it.
pub fn rises(s: &[u64]) -> bool
    ensures { result ≡ ascending self s.now }
{
    s.is_sorted_by(|a, b| *a < *b)
}

// Whether each of the lists that lie joined, one after the other by their sizes, rises.
pub fn lists_rise(sizes: &[u64], joined: &[u64]) -> bool
    requires { total self sizes.now ≤ length joined.now }
    ensures { result ≡ all (ascending self) (cut sizes.now joined.now) }
{
    let mut rest = joined;
    for n in sizes {
        let (list, behind) = rest.split_at(*n as usize);
        if !rises(list) {
            return false;
        }
        rest = behind;
    }
    true
}

// The numbers in the front of an array.
pub fn front<const N: usize>(s: &[u64]) -> [u64; N]
    requires { length s.now ≤ N }
    ensures { (length result ≡ N) × (take (length s.now) result ≡ s.now) }
{
    let mut out = [0; N];
    out[..s.len()].copy_from_slice(s);
    out
}

// As bytes, one by one: `array::from_fn` is no plainer, since it would read each of the N places, and past the slice's end too.
pub fn bytes<const N: usize>(s: &[u64]) -> [u8; N]
    requires { (length s.now ≤ N) × (all (λ n. leb n 255) s.now ≡ true) }
    ensures { (length result ≡ N) × (take (length s.now) result ≡ s.now) }
{
    let mut out = [0; N];
    for (i, n) in s.iter().enumerate() {
        out[i] = *n as u8;
    }
    out
}
