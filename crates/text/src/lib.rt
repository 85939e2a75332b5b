// Text files of lines and words: which bytes, lines, words and numbers there are in them.
#![tactic(auto)]

mod cut;
pub mod fault;
pub mod line;
pub mod lines;
pub mod word;
