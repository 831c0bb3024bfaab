// The program: runs scripts from standard input or from files, each on a bank of its own.
#![tactic(auto)]

ghost use Rattle.std.specs.Prelude.{◌≡◌, if◌then◌else◌, is_ok};
ghost use Rattle.std.specs.Process.{exit_status};

mod joined;
mod run;

use run::{Run, Trouble};
use std::io::Read;
use std::process::ExitCode;
use std::{env, fmt, fs, io};

const HELP: &str = "luostagar: tries a layout of drives by a script

    luostagar            runs the script on standard input
    luostagar FILE..     runs each file as a script of its own, on fresh drives
    luostagar --help     prints this

Drives, up to eight, before any other command:
    memory SECTORS [unreadable N ..] [unwritable N ..]
    rom SECTORS
Commands that ask the bank of drives, each of them known as 8:N:
    count 8
    length 8:N
    ends 8:N SECTOR
    get 8:N SECTOR [bytes N]
    put 8:N SECTOR SEED [bytes N]
Other lines:
    = TEXT               expects TEXT to be the outcome of the command before
    # TEXT               says something to the reader; so does an empty line
";

fn main(rt: HostRuntime) -> ExitCode {
    status(start(&rt))
}

// An error of a script or a file is named where it is met. Of any other the status alone tells.
fn status(ended: io::Result<()>) -> ExitCode
    ensures { exit_status result ≡ (if is_ok ended then 0 else 1) }
{
    match ended {
        Ok(()) => ExitCode::SUCCESS,
        Err(_) => ExitCode::FAILURE,
    }
}

fn start(rt: &HostRuntime) -> io::Result<()> {
    let names: Vec<String> = env::args(rt)?.skip(1).collect(rt.alloc())?;
    match names.as_slice() {
        [] => run_input(rt),
        [only] if only.as_str() == "--help" => rt.print(HELP),
        [only] => run_alone(rt, &read(rt, only.as_str())?),
        names => run_all(rt, names),
    }
}

fn run_input(rt: &HostRuntime) -> io::Result<()> {
    let mut text = Vec::new(rt.alloc());
    rt.stdin().read_to_end(&mut text)?;
    run_alone(rt, &text)
}

fn run_alone(rt: &HostRuntime, text: &[u8]) -> io::Result<()> {
    play(rt, text, "")
}

// The outputs of several files, and their errors, are told apart by the files' names.
fn run_all(rt: &HostRuntime, names: &[String]) -> io::Result<()> {
    for name in names {
        println!(rt; "== {name}")?;
        play(rt, &read(rt, name.as_str())?, format_args!("{name}: "))?;
    }
    Ok(())
}

fn read(rt: &HostRuntime, name: &str) -> io::Result<Vec<u8>> {
    // Where nothing can be printed, the status tells of the error all the same.
    fs::read(rt, name).inspect_err(|error| {
        let _ = eprintln!(rt; "error: {name}: {error}");
    })
}

// Runs a script. A malformed line in it is named behind the words that tell the script from others.
fn play(rt: &HostRuntime, text: &[u8], script: impl fmt::Display + Drop) -> io::Result<()> {
    let mut run = Run::new(rt, text);
    run.to_end().map_err(|trouble| match trouble {
        Trouble::Outside(error) => error,
        Trouble::Malformed(fault) => {
            let _ = eprintln!(rt; "error: {script}line {}: {fault}", run.lines.number);
            io::ErrorKind::InvalidData.into()
        }
    })
}
