// The console: a line of bytes in, a reply into a buffer. It works without a heap.
#![tactic(auto)]

mod console;
pub mod line;
pub mod lines;
mod replies;

pub use console::Console;
