#![tactic(auto)]

mod brake;
mod commands;
mod demo;
mod fault;
mod input;
mod judge;
mod keep;
mod layer;
mod machine;
mod options;
mod running;
mod script;
mod show;
mod task;
mod telling;
mod words;

use fault::{Fault, Why};
use std::env;
use std::process::ExitCode;
use task::{Brake, Calls, Judge, Run};

fn run<'a>(rt: &HostRuntime, words: &'a [String]) -> Result<(), Fault<'a>> {
    match words {
        [command, rest @ ..] => match command.as_str() {
            "brake" => commands::run::<Brake>(rt, rest),
            "judge" => commands::run::<Judge>(rt, rest),
            "demo" => commands::show(rt, rest),
            "calls" => commands::run::<Calls>(rt, rest),
            "run" => commands::run::<Run>(rt, rest),
            "keep" => keep::run(rt, rest),
            "show" => show::run(rt, rest),
            other => Err(Fault::Word(Why::NoCommand, other)),
        },
        [] => Err(Fault::Usage),
    }
}

fn main(rt: HostRuntime) -> anyhow::Result<ExitCode> {
    let mut words = Vec::new(rt.alloc());
    for word in env::args(&rt)?.skip(1) {
        words.push(word)?;
    }
    match run(&rt, words.as_slice()) {
        Ok(()) => Ok(ExitCode::SUCCESS),
        Err(fault) => {
            eprintln!(rt; "mission: {fault}")?;
            Ok(ExitCode::FAILURE)
        }
    }
}
