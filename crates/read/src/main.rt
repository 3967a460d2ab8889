// Reads lines of tokens (docs/FORMAT.md) from the file that its argument names, and prints what the reader says of each.
#![tactic(auto)]

mod answer;
mod call;
mod division;
mod lines;
mod reader;
mod rows;
mod soft;
mod tokens;

use std::fs::File;
use std::{env, io};

// Writes a line to standard error: what failed, a colon and the error's text.
fn fail(rt: &(impl Eprint + AllocGlobal), what: &str, error: io::Error) -> io::Result<()> {
    let text = format!(in rt.alloc(); "{error}")?;
    match text.split_once(" (os error ") {
        Some((told, _)) => eprintln!(rt; "{what}: {told}"),
        None => eprintln!(rt; "{what}: {text}"),
    }
}

fn main(rt: HostRuntime) -> io::Result<()> {
    match env::args(&rt)?.nth(1) {
        None => eprintln!(rt; "the name of a file: Invalid argument"),
        Some(path) => match File::open(&rt, &path) {
            Err(error) => fail(&rt, &path, error),
            Ok(mut file) => lines::tell_all(&rt, &mut file),
        },
    }
}
