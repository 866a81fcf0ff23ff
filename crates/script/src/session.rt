// A script as it runs: what its commands work on, and what they were answered.
ghost use Rattle.std.specs.Prelude.{◌≡◌};
ghost use Rattle.script.specs.Tallies.{counted, Tallied};

use crate::answer::Answer;
use crate::line::Words;
use crate::refusal::NotGranted;
use crate::wrong::Wrong;
use crate::{bounder, pairs, sources};
use bounding::CountingBounder;
use std::alloc::Global;
use std::fmt;

// How many commands were answered, and how.
#[derive(Clone, Copy, Default)]
struct Tally {
    granted: u64,
    refused: u64,
}

impl Tally {
    fn count<T>(&mut self, outcome: &Result<T, NotGranted<'_>>)
        ensures { self.new ≡ counted self.old outcome.now }
    {
        match outcome {
            Ok(_) => self.granted = self.granted.saturating_add(1),
            Err(NotGranted::Refused(_)) => self.refused = self.refused.saturating_add(1),
            Err(NotGranted::Wrong(_)) => {}
        }
    }
}

impl fmt::Display for Tally {
    fn fmt<W: fmt::Write>(&self, f: &mut fmt::Formatter<W>) -> fmt::Result {
        let Tally { granted, refused } = *self;
        let commands = granted.saturating_add(refused);
        write!(
            f,
            "commands {commands}, granted {granted}, refused {refused}"
        )
    }
}

#[derive(Drop)]
pub struct Session {
    heap: Global,
    tally: Tally,
    bounder: Option<CountingBounder>,
}

impl Session {
    pub fn new(heap: Global) -> Self
        ensures { (result.tally.granted ≡ 0) × (result.tally.refused ≡ 0) }
    {
        Session {
            heap,
            tally: Tally::default(),
            bounder: None,
        }
    }

    // The answer to a line's command. A blank line or a comment has none.
    pub fn answer<'a>(&mut self, line: &'a str) -> Result<Option<Answer>, NotGranted<'a>>
        ensures { Tallied self.old.tally result self.new.tally }
    {
        let mut words = Words::new(self.heap, line);
        let Some(command) = words.next() else {
            return Ok(None);
        };
        if command.starts_with('#') {
            return Ok(None);
        }
        let outcome = self.obey(command, &mut words);
        self.tally.count(&outcome);
        outcome.map(Some)
    }

    fn obey<'a>(
        &mut self,
        command: &'a str,
        words: &mut Words<'a>,
    ) -> Result<Answer, NotGranted<'a>>
        ensures { self.new.tally ≡ self.old.tally }
    {
        // an enum of the commands would be matched here alone; the forms of a shape, which stand behind `count` too, have one
        match command {
            "interval" => pairs::obey(words),
            "bounder" => {
                self.bounder = Some(bounder::begin(words)?);
                Ok(Answer::Counting)
            }
            "count" => bounder::count(self.bounder.as_mut().ok_or(Wrong::NoBounder)?, words),
            "bounds" => bounder::bounds(self.bounder.as_ref().ok_or(Wrong::NoBounder)?, words),
            _ => {
                let form = command.parse().map_err(|_| Wrong::UnknownCommand(command))?;
                sources::obey(form, words)
            }
        }
    }
}

// The summary behind the last answer.
impl fmt::Display for Session {
    fn fmt<W: fmt::Write>(&self, f: &mut fmt::Formatter<W>) -> fmt::Result {
        self.tally.fmt(f)
    }
}
