// The program of the draw secretary and the integrity officer.
#![tactic(auto)]

mod command;
mod failure;
mod report;
mod sheet;

use crate::command::Command;
use crate::failure::Failure;
use crate::sheet::Sheet;
use std::env;
use std::process::ExitCode;
use texts::help::help_text;

// The words of the built-in sheet: bribes of four entrants.
const BUILT_IN: [u32; 13] = [
    0x40000044, 0x60100000, 0x60200004, 0x60300000, 0x61000005, 0x61200000, 0x61300000, 0x62000000,
    0x62100006, 0x62300003, 0x63000009, 0x63100007, 0x63200000,
];

fn show_built_in(rt: &HostRuntime) -> Result<(), Failure> {
    let bytes: Vec<u8> = BUILT_IN
        .iter()
        .flat_map(|word| word.to_le_bytes())
        .collect(rt.alloc())?;
    rt.println("the built-in sheet")?;
    Sheet::read(&bytes)?.show(rt)
}

fn run(rt: &HostRuntime, command: Command) -> Result<(), Failure> {
    match command {
        Command::ShowBuiltIn => show_built_in(rt),
        Command::Show(path) => Sheet::read_file(rt, path)?.show(rt),
        Command::Report(path) => Sheet::read_file(rt, path)?.report(rt),
        Command::Help => Ok(rt.println(help_text())?),
    }
}

fn attend(rt: &HostRuntime) -> Result<(), Failure> {
    let mut words = env::args(rt)?.skip(1);
    run(rt, Command::of(words.next(), words.next())?)
}

fn main(rt: HostRuntime) -> ExitCode {
    match attend(&rt) {
        Ok(()) => ExitCode::SUCCESS,
        Err(failure) => {
            // where the error stream takes nothing, the status still tells
            let _ = failure.tell(&rt);
            ExitCode::FAILURE
        }
    }
}
