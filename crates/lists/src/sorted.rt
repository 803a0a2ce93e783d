// Items that rise in the front of a slice: where one stands, where one ranks, and putting a number in. The slice is lent, so that nothing of it is copied.
ghost use Rattle.std.specs.Prelude.{◌≡◌, ◌≤◌, length, take, drop};
ghost use Rattle.std.specs.Fn.{FnReturnsAt};
ghost use Rattle.lists.specs.Lists.{include, Ascending, self};
ghost use Rattle.lists.specs.Arrays.{Places, Ranks, leads, Included};

use crate::fronts;

// Where the first item that passes stands.
pub fn find<T, F: Fn(&T) -> bool>(s: &[T], passes: F) -> Option<usize>
    requires { (x : _) → F.pre passes x }
    ensures { Places (FnReturnsAt F.Fn passes) s.now result }
{
    s.iter().position(|x| passes(x))
}

// How many items, from the front, pass before the first that does not.
pub fn rank<T, F: Fn(&T) -> bool>(s: &[T], is_under: F) -> usize
    requires { (x : _) → F.pre is_under x }
    ensures { Ranks (FnReturnsAt F.Fn is_under) s.now result }
{
    s.iter().take_while(|x| is_under(x)).count()
}

// Whether x stands at k among the first n: where it stands at all if k is its rank. One comparison, where `contains` goes through all, which
// counterparts took a third longer for.
fn stands(s: &[u64], n: usize, k: usize, x: u64) -> bool
    requires { n ≤ length s.now }
    ensures { result ≡ leads self x (drop k (take n s.now)) }
{
    k < n && s[k] == x
}

// The first n with x among them: how many they are then. The count is handed in beside the slice, since it takes one place more than n to
// put x in.
pub fn include(s: &mut [u64], n: usize, x: u64) -> usize
    requires { (n ≤ length s.old) × Ascending self (take n s.old) × (length (include self x (take n s.old)) ≤ length s.old) }
    ensures { Included s.old n x s.new result }
{
    let k = rank(&s[..n], |y| *y < x);
    if stands(s, n, k, x) {
        return n;
    }
    fronts::insert_at(s, n, k, x);
    n + 1
}
