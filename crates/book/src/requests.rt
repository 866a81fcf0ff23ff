// A list of calls as values, and their answers.
use crate::frame::Window;
use crate::states::{Target, Verdict};
use bounding::Answer;
use interval::Fault;

// One call of a list. A slip goes by the page that it bears.
#[derive(Drop)]
pub enum Request<K, S> {
    Opening,
    Retaking(usize),
    // the shape of a source
    Adding(usize, S),
    // the shape that bytes hold
    AddingBytes(usize, Vec<u8>),
    Closing(usize),
    Discarding(usize),
    Telling(Target),
    Sifting(Target, Window<K>),
}

// What a granted call of a list answered.
#[derive(Clone, Copy)]
pub enum Done {
    // a slip for that page was handed out
    Opened(usize),
    Added,
    Closed(usize),
    Discarded(usize),
    Told(Answer),
    Sifted(Verdict),
}

// What a call of a list answered, or its refusal.
pub type Reply = Result<Done, Fault>;
