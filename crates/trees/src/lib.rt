// The tree of a depot that is split unevenly: its marks walked from the left, the leaf of a route, the shards of all leaves.
#![tactic(auto)]

ghost use Rattle.std.specs.Prelude.{◌≡◌, ◌≤◌, ◌<◌, ◌+◌, ◌*◌, ◌^◌, ◌++◌, length, get_or, IfOk};
ghost use Rattle.lists.specs.Front.{held};
ghost use Rattle.rules.specs.Tree.{Tree, height, leaves, leaf_of, leaves_below, tree_refusal, tree_of};
ghost use Rattle.types.specs.Refusals.{refusal_number, refused_in};
ghost use Rattle.trees.specs.Walks.{Goes, GoesOn, breach_at, Noted, Below, OfTree};

use lists::front::Front;
use types::Shard;
use types::refusal::Refusal;

// What a walk of marks leaves: at each split where its right half begins, so that a route goes down to its leaf; and the mark that the walk
// has come to.
#[derive(Clone, Copy)]
pub struct Halves {
    pub right: [u8; 63],
    pub at: usize,
}

// What is wrong where a walk broke: a split there is one too deep; else no mark is there, or another value.
fn breach(marks: &[u64], at: usize) -> Refusal
    ensures { refusal_number result ≡ breach_at at marks.now }
{
    match marks.get(at) {
        Some(1) => Refusal::TreeTooLarge,
        _ => Refusal::NoTree,
    }
}

impl Halves {
    pub fn new() -> Halves
        ensures { result.at ≡ 0 }
    {
        Halves {
            right: [0; 63],
            at: 0,
        }
    }

    // The tree that begins at a mark, walked with the depth still allowed. Whether it is whole: the walk has then come to the mark behind it,
    // else to the first that breaks it. Each mark is gone over once. It answers a bool, since a refusal would be put down in memory and read
    // again at each level, which takes longer than the walk.
    #[cycle(walk)]
    #[inline(always)]
    fn walk(&mut self, marks: &[u64], left: u32) -> bool
        requires { length marks.now ≤ 63 }
        ensures { Goes result left marks.now self.old.at self.new.at self.old.right self.new.right }
    {
        match marks.get(self.at) {
            Some(0) => {
                self.at += 1;
                true
            }
            Some(1) => left > 0 && self.split(marks, left - 1),
            _ => false,
        }
    }

    // The halves of the split at a mark, the left one and then the right one, which begins where the left one ends.
    #[cycle(walk)]
    fn split(&mut self, marks: &[u64], left: u32) -> bool
        requires { (length marks.now ≤ 63) × (self.old.at < length marks.now) × (get_or marks.now self.old.at 0 ≡ 1) }
        ensures { GoesOn result left marks.now self.old.at self.new.at self.old.right self.new.right }
    {
        let place = self.at;
        self.at += 1;
        if !self.walk(marks, left) {
            return false;
        }
        self.right[place] = self.at as u8;
        self.walk(marks, left)
    }

    // The tree that the marks are, by the table.
    pub fn read(&mut self, marks: &[u64]) -> Result<(), Refusal>
        requires { self.old.at ≡ 0 }
        ensures refused { refused_in result ≡ tree_refusal marks.now }
        ensures read { IfOk result (λ _. Noted marks.now self.new.right 0 (tree_of marks.now)) }
    {
        if marks.len() > 63 {
            return Err(Refusal::TreeTooLarge);
        }
        if !self.walk(marks, 16) {
            return Err(breach(marks, self.at));
        }
        if self.at < marks.len() {
            return Err(Refusal::NoTree);
        }
        Ok(())
    }

    // The leaf of a route: from the root down, to the left where its next bit is 0 and to the right where it is 1.
    pub fn leaf_of(&self, marks: &[u64], route: u64) -> Shard
        requires { OfTree marks.now self.now.right }
        ensures { (t : Tree) → height t ≤ 16 → Noted marks.now self.now.right 0 t → result.0 ≡ leaf_of t route }
    {
        let mut at = 0;
        let mut shard = 1;
        let mut depth: u32 = 0;
        // A `while`, since a tree tells by its marks how far down it goes.
        while marks[at] == 1 {
            let bit = (route >> (63 - depth)) % 2;
            at = if bit == 0 {
                at + 1
            } else {
                self.right[at] as usize
            };
            shard = 2 * shard + bit;
            depth += 1;
        }
        Shard(shard)
    }

    // The leaves below the tree at a place, whose root is this shard, put behind the shards that stand.
    fn list(&self, marks: &[u64], at: usize, root: Shard, left: u32, shards: &mut Front<u64, 32>)
        requires { Below marks.now self.now.right at root.0 left shards.old.len }
        ensures { (t : Tree) → Noted marks.now self.now.right at t → held shards.new ≡ held shards.old ++ leaves_below root.0 t }
    {
        if marks[at] == 0 {
            shards.push(root.0);
            return;
        }
        self.list(marks, at + 1, Shard(2 * root.0), left - 1, shards);
        self.list(
            marks,
            self.right[at] as usize,
            Shard(2 * root.0 + 1),
            left - 1,
            shards,
        );
    }

    // The shards of all leaves, from left to right. A tree of 63 marks has 32.
    pub fn leaves(&self, marks: &[u64]) -> Front<u64, 32>
        requires { OfTree marks.now self.now.right }
        ensures { (t : Tree) → height t ≤ 16 → Noted marks.now self.now.right 0 t → held result ≡ leaves t }
    {
        let mut shards = Front::new(0);
        self.list(marks, 0, Shard(1), 16, &mut shards);
        shards
    }
}
