// The calls of a script: a row for each, with its name, how many numbers it takes, and whether it takes a list. Its code is its row's place.
ghost use Rattle.std.specs.Prelude.{◌≡◌, ◌<◌, None, IfSome, map, get_or, position};
ghost use Rattle.std.specs.Option.{option_map};
ghost use Rattle.script.specs.Texts.{same_text};
ghost use Rattle.script.specs.Calls.{codes, count_of, takes_list, code_of, any_count};

// Places of calls that are asked for by name. They stay numbers, since dispatch numbers its kinds in the table's order.
pub const REPEAT: usize = 0;

pub const NEW: usize = 1;

pub const RESTORE: usize = 2;

pub const CERTIFY: usize = 5;

pub const SETTLED: usize = 7;

pub const RETURNED: usize = 8;

pub const RECORD_TERMINAL: usize = 13;

pub const STAMP_TERMINAL: usize = 14;

pub const PRUNE: usize = 15;

pub const BUNDLE: usize = 16;

pub const DUMP: usize = 39;

// A call's place in the table.
#[derive(Clone, Copy)]
pub struct Code {
    pub place: usize,
    pub ghost known: { place < codes },
}

// How many numbers a call takes: just so many, or so many and any behind them.
#[derive(Clone, Copy)]
pub enum Count {
    Just(usize),
    From(usize),
}

use Count::{From, Just};

// A name; how many numbers the call takes; how many words an item of its list has, where it takes one.
#[derive(Clone, Copy)]
struct Row(&'static [u8], Count, Option<usize>);

// How many calls there are.
const CODES: usize = 40;

const ROWS: [Row; CODES] = [
    Row(b"repeat", Just(1), None),
    Row(b"new", Just(4), None),
    Row(b"restore", From(0), None),
    Row(b"register_committed", From(0), None),
    Row(b"record_absence", Just(3), None),
    Row(b"certify", Just(2), None),
    Row(b"record_abandonment", From(0), None),
    Row(b"settled", Just(2), None),
    Row(b"returned", Just(2), None),
    Row(b"closes", Just(0), Some(2)),
    Row(b"fated", Just(1), None),
    Row(b"release_resolved", From(0), None),
    Row(b"forget", Just(1), None),
    Row(b"record_terminal", Just(4), None),
    Row(b"stamp_terminal", Just(2), None),
    Row(b"prune", Just(1), Some(3)),
    Row(b"bundle", From(0), None),
    Row(b"questions", Just(0), Some(5)),
    Row(b"open_at", Just(6), None),
    Row(b"answers", Just(7), None),
    Row(b"past_deadline", Just(1), Some(5)),
    Row(b"issuers_of", Just(1), Some(2)),
    Row(b"claimants", Just(2), Some(1)),
    Row(b"counterparts", Just(2), Some(1)),
    Row(b"unstamped_departures", Just(0), Some(1)),
    Row(b"reach", Just(1), Some(1)),
    Row(b"abandonment_answers", Just(1), None),
    Row(b"is_covered", Just(1), None),
    Row(b"departed", Just(1), None),
    Row(b"executed", Just(1), None),
    Row(b"reaches_beyond", Just(1), None),
    Row(b"issued_by", Just(2), None),
    Row(b"local", Just(0), None),
    Row(b"rebuilt", Just(0), None),
    Row(b"snapshot", Just(0), Some(1)),
    Row(b"rebuilt_by_shard", Just(0), Some(2)),
    Row(b"leaf_for_route", From(1), None),
    Row(b"leaves", From(0), Some(1)),
    Row(b"counterparts_by_tree", From(1), Some(1)),
    Row(b"dump", Just(0), None),
];

// How many numbers a call takes.
#[tactic(auto, unfolding(crate::specs::Calls::count_of))]
pub fn count_of(code: Code) -> Count
    ensures { result ≡ count_of code.place }
{
    row_of(code, &ROWS).1
}

// Whether a call takes a list.
#[tactic(auto, unfolding(crate::specs::Calls::takes_list))]
pub fn takes_list(code: Code) -> bool
    ensures { result ≡ takes_list code.place }
{
    row_of(code, &ROWS).2.is_some()
}

fn row_of(code: Code, rows: &[Row; CODES]) -> Row
    ensures count { result.1 ≡ get_or (map (λ row. row.1) rows.now) code.place any_count }
    ensures item { result.2 ≡ get_or (map (λ row. row.2) rows.now) code.place None }
{
    rows[code.place]
}

// The code of a name.
#[tactic(auto, unfolding(crate::specs::Calls::code_of))]
pub fn code_of(name: &[u8]) -> Option<Code>
    ensures { option_map (λ code. code.place) result ≡ code_of name.now }
{
    let place = place_of(name, &ROWS)?;
    Some(Code { place })
}

// The first row of that name.
fn place_of(name: &[u8], rows: &[Row; CODES]) -> Option<usize>
    ensures known { IfSome result (λ place. place < codes) }
    ensures value { result ≡ position (λ row. same_text name.now row.0.now) rows.now }
{
    rows.iter().position(|row| name == row.0)
}
