//! Plays scripts of calls, and prints one answer a line: the files that the arguments name, one after another, or else standard input.

#![tactic(auto)]

mod line;
mod printer;
mod script;
#[cfg(test)]
mod tests;

use printer::play_over;
use script::read_script;
use std::io::Read;
use std::{env, fs, io};

// The calls before a mistake are played; then it is told, and the status is 1.
fn play_text(rt: HostRuntime, text: &str) -> io::Result<()> {
    let script = read_script(rt.alloc(), text);
    play_over(rt, &script)?;
    match script.mistake {
        Some((number, mistake)) => {
            eprintln!(rt; "line {number}: {mistake}")?;
            Err(io::Error::from(io::ErrorKind::InvalidInput))
        }
        None => Ok(()),
    }
}

fn main(rt: HostRuntime) -> io::Result<()> {
    let names: Vec<String> = env::args(&rt)?.skip(1).collect(rt.alloc())?;
    if names.is_empty() {
        let mut text = String::new(rt.alloc());
        rt.stdin().read_to_string(&mut text)?;
        return play_text(rt, text.as_str());
    }
    for name in names.iter() {
        let text = fs::read_to_string(&rt, name.as_str())?;
        play_text(rt, text.as_str())?;
    }
    Ok(())
}
