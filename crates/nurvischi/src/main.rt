// The program: it reads words and files, calls the library, and prints.
#![tactic(auto)]

mod faults;
mod hex;
mod inspect;

use faults::Fault;
use std::env;
use std::process::ExitCode;

const HELP: &str =
    "nurvischi inspect TRACE   list the records of a trace file: `N P LENGTH HEX` for each, then `records COUNT`
nurvischi help            these words

Numbers are base ten, bytes are hexadecimal pairs. The documents are in the folder docs/ of the repository:
docs/command-line.md for these words, docs/trace-format.md for trace files, docs/refusals.md for the refusals.";

fn main(rt: HostRuntime) -> ExitCode {
    match run(&rt) {
        Ok(()) => ExitCode::SUCCESS,
        Err(fault) => {
            let _ = eprintln!(rt; "nurvischi: {fault}");
            ExitCode::FAILURE
        }
    }
}

fn run(rt: &HostRuntime) -> Result<(), Fault> {
    let mut words = env::args(rt).map_err(|_| Fault::NotText)?;
    let _ = words.next();
    let Some(command) = words.next() else {
        return help(rt);
    };
    match command.as_str() {
        "help" => {
            if words.next().is_some() {
                return Err(Fault::HelpTakesNone);
            }
            help(rt)
        }
        "inspect" => {
            let Some(path) = words.next() else {
                return Err(Fault::InspectTakesOne);
            };
            if words.next().is_some() {
                return Err(Fault::InspectTakesNoMore);
            }
            inspect::run(rt, path)
        }
        _ => Err(Fault::Unknown(command)),
    }
}

fn help(rt: &HostRuntime) -> Result<(), Fault> {
    println!(rt; "{HELP}")?;
    Ok(())
}
