// The text of call scripts: lines of an input, a line taken apart, and the text of answers.
#![tactic(auto)]

pub mod calls;
mod line;
mod lines;
mod numbers;
mod parts;
mod text;
mod tokens;

pub use line::{Call, Line};
pub use lines::{Reader, TooLong};
pub use parts::{parse, parse_line};
pub use text::{FILL, Writer};
