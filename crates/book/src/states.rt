// The plain values of a book: its state, its calls and what they ask of it.

// What a book is doing.
#[derive(Clone, Copy, PartialEq, Eq, Debug)]
pub enum State {
    Idle,
    // a new page is open
    Filling,
    // that closed page is open again
    Refilling(usize),
}

// A call that may change the book. A slip goes by the page that it bears.
#[derive(Clone, Copy, PartialEq, Eq, Debug)]
pub enum Asked {
    Open,
    Retake(usize),
    Add(usize),
    Close(usize),
    Discard(usize),
}

// What a granted call does: by a rule of the project, one match on the book's state and the call decides it.
#[derive(Clone, Copy, PartialEq, Eq, Debug)]
pub enum Deed {
    // opens a new page
    Begin,
    // opens that closed page again
    Again(usize),
    // adds to the open page
    Put,
    // closes the open page as the next one
    Append,
    // closes it in the place of that page
    Replace(usize),
    // drops it
    Forget,
}

// A page, or all pages together. It is no `Option`, since the column is not the lack of a page.
#[derive(Clone, Copy, PartialEq, Eq, Debug)]
pub enum Target {
    Page(usize),
    Column,
}

// The token for an open page. It has to be closed or discarded, and once only.
pub struct Slip {
    pub(crate) page: usize,
}

#[derive(Clone, Copy, PartialEq, Eq, Debug)]
pub enum Verdict {
    Skip,
    Keep,
}
