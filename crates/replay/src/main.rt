// Does the calls of the recording (docs/RECORDING.md) again, an entry at a time, and counts those that answered, submitted
// or left something else than was recorded. Proved is that it is safe and ends; what it finds is held to the file `stdout`.
#![tactic(auto)]

mod again;
mod entry;

use again::Call;
use entry::{HEAD, Head, LONGEST_INPUT};
use grid::layout::{Record, SIZE};
use line::text::MAX_LOGICAL;
use std::fs::File;
use std::io::Read;
use std::{env, io};

// More than any file has: by it the loop over the entries ends.
const MOST_CALLS: u64 = 1000000000;

// What a call did.
#[derive(Clone, Copy)]
enum Did {
    AsRecorded,
    Differs,
    // Its tag is none.
    NoCall,
}

// Why there is no next call.
#[derive(Clone, Copy)]
enum Stop {
    // The file ends before its entry.
    End,
    // The file ends in the middle of it.
    Cut,
    // Its input is longer than an input may be.
    TooLong,
}

// Where a read fails the file is taken to end.
impl From<io::Error> for Stop {
    fn from(_error: io::Error) -> Stop {
        Stop::Cut
    }
}

#[derive(Clone, Copy)]
struct Tally {
    calls: u64,
    differ: u64,
    no_call: u64,
    stop: Option<Stop>,
}

// Does the call of an entry again. Behind the text there are only zeros, in the entry as in out.
fn redo(head: &Head, input: &[u8], text: &[u8; MAX_LOGICAL], rec: &mut Record) -> Did {
    let Ok(call) = Call::try_from(head.tag) else {
        return Did::NoCall;
    };
    let mut out = [0u8; MAX_LOGICAL];
    let answer = call.again(head, input, rec, &mut out);
    if answer == head.answer
        && out == *text
        && entry::digest(head, input, text, rec) == head.digest
    {
        Did::AsRecorded
    } else {
        Did::Differs
    }
}

// Reads the next entry and does its call.
fn turn(file: &mut impl Read, rec: &mut Record) -> Result<Did, Stop> {
    let mut bytes = [0u8; HEAD];
    let got = match file.read(&mut bytes) {
        Ok(0) | Err(_) => return Err(Stop::End),
        Ok(n) => n,
    };
    file.read_exact(&mut bytes[got..])?;
    let head = Head::read(bytes);
    if head.input_length > LONGEST_INPUT {
        return Err(Stop::TooLong);
    }
    let mut space = [0u8; LONGEST_INPUT];
    let input = &mut space[..head.input_length];
    file.read_exact(input)?;
    let mut text = [0u8; MAX_LOGICAL];
    file.read_exact(&mut text[..usize::from(head.text_length)])?;
    Ok(redo(&head, input, &text, rec))
}

// Does the calls of the file, to its end or to an entry whose end is not known. One with a tag that is none counts as a call that differs.
fn replay(file: &mut impl Read) -> Tally {
    let mut rec: Record = [0; SIZE];
    let mut tally = Tally {
        calls: 0,
        differ: 0,
        no_call: 0,
        stop: None,
    };
    for _ in 0..MOST_CALLS {
        match turn(file, &mut rec) {
            Ok(Did::AsRecorded) => {}
            Ok(Did::Differs) => tally.differ += 1,
            Ok(Did::NoCall) => {
                tally.differ += 1;
                tally.no_call += 1;
            }
            Err(stop) => {
                tally.stop = Some(stop);
                break;
            }
        }
        tally.calls += 1;
    }
    tally
}

fn report(rt: &impl Print, t: Tally) -> io::Result<()> {
    println!(rt; "{} calls, {} differ", t.calls, t.differ)?;
    if t.no_call > 0 {
        println!(rt; "{} with a tag that is none", t.no_call)?;
    }
    match t.stop {
        Some(Stop::Cut) => println!(rt; "the file ends in the middle of an entry"),
        Some(Stop::TooLong) => println!(rt; "the next entry has too long an input"),
        Some(Stop::End) | None => Ok(()),
    }
}

fn main(rt: HostRuntime) -> io::Result<()> {
    let Some(path) = env::args(&rt)?.nth(1) else {
        let message = "the first argument names the recording";
        return Err(io::Error::new(io::ErrorKind::InvalidInput, message));
    };
    let mut file = File::open(&rt, path.as_str())?;
    let t = replay(&mut file);
    report(&rt, t)
}
