// Runs a script from the file named as the program's argument, or from standard input where none is named.
use crate::refusal::NotGranted;
use crate::session::Session;
use crate::wrong::Wrong;
use std::fs::File;
use std::io::{BufRead, BufReader, BufWriter, ErrorKind, Write};
use std::{env, io};

// The run did not come to the script's end. Standard error has been told why.
#[derive(Clone, Copy, Debug)]
pub struct Stopped;

// Why a run ends before the script does.
#[derive(Drop)]
enum End {
    Told(Stopped),
    Untold(io::Error),
}

impl From<io::Error> for End {
    fn from(error: io::Error) -> Self {
        End::Untold(error)
    }
}

pub fn run(rt: &HostRuntime) -> Result<(), Stopped> {
    match run_named(rt) {
        Ok(()) => Ok(()),
        Err(End::Told(stopped)) => Err(stopped),
        Err(End::Untold(error)) => {
            let _ = eprintln!(rt; "{error}");
            Err(Stopped)
        }
    }
}

fn run_named(rt: &HostRuntime) -> Result<(), End> {
    let out = BufWriter::new(rt.alloc(), rt.stdout())?;
    let mut console = Console { rt, out };
    let mut names = env::args(rt)?.skip(1);
    let Some(name) = names.next() else {
        return console.answer_lines(BufReader::new(rt.alloc(), rt.stdin())?);
    };
    if let Some(extra) = names.next() {
        eprintln!(rt; "'{extra}' is an argument too many")?;
        return Err(End::Told(Stopped));
    }
    match File::open(rt, name.as_str()) {
        Ok(file) => console.answer_lines(BufReader::new(rt.alloc(), file)?),
        Err(error) => {
            eprintln!(rt; "{name}: {error}")?;
            Err(End::Told(Stopped))
        }
    }
}

// Where the answers to a script go, and where it is told why it stops.
#[derive(Drop)]
struct Console<'a, W> {
    rt: &'a HostRuntime,
    out: W,
}

impl<W: Write> Console<'_, W> {
    fn answer_lines<B: BufRead + Drop>(&mut self, input: B) -> Result<(), End> {
        let mut session = Session::new(self.rt.alloc());
        for (line, number) in input.lines(self.rt.alloc()).zip(1u64..) {
            let line = match line {
                Ok(line) => line,
                Err(error) if error.kind() == ErrorKind::InvalidData => return self.stop_at(
                    number,
                    Wrong::NotText,
                ),
                Err(error) => return Err(End::Untold(error)),
            };
            match session.answer(line.as_str()) {
                Ok(Some(answer)) => writeln!(self.out, "{number}: {answer}")?,
                Ok(None) => {}
                Err(NotGranted::Refused(refusal)) => writeln!(self.out, "{number}: {refusal}")?,
                Err(NotGranted::Wrong(wrong)) => return self.stop_at(number, wrong),
            }
        }
        writeln!(self.out, "\n{session}")?;
        self.out.flush()?;
        Ok(())
    }

    // The answers go out before the script's fault is told.
    fn stop_at(&mut self, number: u64, wrong: Wrong<'_>) -> Result<(), End> {
        self.out.flush()?;
        eprintln!(self.rt; "line {number}: {wrong}")?;
        Err(End::Told(Stopped))
    }
}
