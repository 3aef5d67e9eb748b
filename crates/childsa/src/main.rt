//! Runs a script of commands on the messages about Child SAs, and prints the answer to each.
//!
//! The script is the file that the one argument names or, without one, the standard input.
#![tactic(auto)]

mod books;
mod channels;
mod commands;
mod desk;
mod ends;
mod fault;
mod help;
mod messages;
mod moves;
mod report;
mod row_words;
mod tap;
mod words;
mod wrong;

use commands::answer;
use desk::Desk;
use fault::Fault;
use std::alloc::AllocError;
use std::io::{BufRead, BufReader, Read};
use std::{env, fs};
use wrong::Stop;

/// Prints the answer to the line of this number.
fn respond(rt: &HostRuntime, desk: &mut Desk, number: u64, line: &str) -> Result<(), Fault> {
    let printed = match answer(desk, rt.alloc(), line) {
        Ok(Some(text)) => rt.println(text),
        Ok(None) => Ok(()),
        Err(Stop::Wrong(wrong)) => println!(rt; "line {number}: {wrong}"),
        Err(Stop::Memory(error)) => return Err(error.into()),
    };
    printed.map_err(Fault::Print)
}

/// Answers each line of a script in turn.
fn answer_all<R: BufRead + Drop>(rt: &HostRuntime, script: R) -> Result<(), Fault> {
    let mut desk = Desk::new();
    for (number, line) in (1..=u64::MAX).zip(script.lines(rt.alloc())) {
        let line = line.map_err(|error| Fault::Read {
            line: number,
            error,
        })?;
        respond(rt, &mut desk, number, line.as_str())?;
    }
    Ok(())
}

/// The name of the script's file, where the arguments name one.
fn script_name(rt: &HostRuntime) -> Result<Option<String>, Fault> {
    let mut args = env::args(rt).map_err(Fault::Arguments)?.skip(1);
    let name = args.next();
    if args.next().is_some() {
        return Err(Fault::Usage);
    }
    Ok(name)
}

/// Answers a script that is read through a buffer.
fn answer_buffered<R: Read + Drop>(rt: &HostRuntime, script: R) -> Result<(), Fault> {
    let reader = BufReader::new(rt.alloc(), script).map_err(|_| Fault::Memory(AllocError))?;
    answer_all(rt, reader)
}

/// Answers the script that the arguments name.
fn run(rt: &HostRuntime) -> Result<(), Fault> {
    let Some(name) = script_name(rt)? else {
        return answer_buffered(rt, rt.stdin());
    };
    let file = fs::open(rt, name.as_str()).map_err(|error| Fault::Open { name, error })?;
    answer_buffered(rt, file)
}

fn main(rt: HostRuntime) -> Result<(), Fault> {
    run(&rt)
}
