// What a line of a script is, taken apart.
ghost use Rattle.std.specs.Prelude.{◌≡◌, ◌≤◌, ◌<◌, false};
ghost use Rattle.script.specs.Calls.{takes_list, Takes};

use crate::calls::Code;

// A line: an empty one or a remark, one that has the next call made so often, a call, or none of these.
#[derive(Clone, Copy)]
pub enum Line {
    Skip,
    Repeat(u64),
    Call(Call),
    Malformed,
}

// A call: its code, how many numbers stand behind its name, and how many words it is lent. The numbers are as many as
// it takes, and one that takes no list is lent none.
#[derive(Clone, Copy)]
pub struct Call {
    pub code: Code,
    pub count: usize,
    pub lent: usize,
    pub ghost no_repeat: { 0 < code.place },
    pub ghost numbers: { count ≤ 8192 },
    pub ghost words: { lent ≤ 8192 },
    pub ghost takes: { Takes code.place count },
    pub ghost none: { takes_list code.place ≡ false → lent ≡ 0 },
}
