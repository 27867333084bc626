// Scripts of calls: each call is read from a script's bytes and made on a table over three buffers. docs/REPLAY.md has the format.
#![tactic(auto)]

mod call;
mod fields;
mod lab;
mod lent;
mod script;

pub use fields::{Strings, u32_at};
pub use lab::Lab;
pub use lent::{Played, fill, play};
pub use script::play_script;
