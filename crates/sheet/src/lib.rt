// The sheet: levels, lines and a bank of modules, with its calls.
//
// `lay` gives it atoms and `enter` adds a line (`entry`), `next` hands out the plans one by one in
// listing order (`next`), and once all are handed out `tell` says how many have an atom (`tell`).
// A call that is refused changes nothing.

#![tactic(auto)]

pub mod entry;
pub mod next;
pub mod paper;
mod parts;
pub mod tell;
