// The script language of the program `pagebook`: reading its commands, asking the library and writing the answers.
#![tactic(auto)]

mod answer;
mod bounder;
mod form;
mod line;
mod pair;
mod pairs;
mod program;
mod refusal;
mod session;
mod source;
mod sources;
mod wrong;

pub use program::{Stopped, run};
