// What is kept in the first n of a slice: putting in, taking out and keeping some, each in place. The count is handed in beside the slice,
// since putting in writes one place more, and what stands behind the front, as the roster's free slots do, stays.
ghost use Rattle.std.specs.Prelude.{◌≤◌, ◌<◌, length};
ghost use Rattle.lists.specs.Arrays.{Inserted, Removed, Kept};

// x put in at k: those from k on move up by one.
pub fn insert_at<T: Copy>(s: &mut [T], n: usize, k: usize, x: T)
    requires { (k ≤ n) × (n < length s.old) }
    ensures { Inserted s.old n k x s.new }
{
    s.copy_within(k..n, k + 1);
    s[k] = x;
}

// What stands at k taken out: those behind it move down by one.
pub fn remove_at<T: Copy>(s: &mut [T], n: usize, k: usize)
    requires { (k < n) × (n ≤ length s.old) }
    ensures { Removed s.old n k s.new }
{
    s.copy_within(k + 1..n, k);
}

// Those of the first whose flag is up moved to the front in their order, a flag for each of the first; how many they are.
pub fn retain<T: Copy>(s: &mut [T], stay: &[bool]) -> usize
    requires { length stay.now ≤ length s.old }
    ensures { Kept stay.now s.old s.new result }
{
    let mut kept = 0;
    for (i, stays) in stay.iter().enumerate() {
        if *stays {
            s[kept] = s[i];
            kept += 1;
        }
    }
    kept
}
