// How many words an item of each written list has, and how many the longest list has: all forty-eight entries, each with one item.
pub const QUESTION_WORDS: usize = 5;

pub const TERM_WORDS: usize = 5;

pub const TERMS_ROOM: usize = 240;

pub const REPORT_WORDS: usize = 3;

pub const REPORTS_ROOM: usize = 144;

pub const CLOSE_WORDS: usize = 2;

pub const ISSUER_WORDS: usize = 2;

pub const ISSUERS_ROOM: usize = 96;
