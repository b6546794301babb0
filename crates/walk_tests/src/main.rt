//! Runs the walks of the files that the arguments name: each builds a controller and makes calls on it, and what every
//! call gives is printed. The files and the text that they have to give are written by the model (tools/model).
#![tactic(auto)]

use std::{env, fs, io};

mod calls;
mod error;
mod record;
mod shape;
mod walk;

use walk::run_walk;

// Runs the walks of a file, each of which begins with `#`.
fn run_file(rt: &HostRuntime, name: &str) -> io::Result<()> {
    let text = fs::read_to_string(rt, name)?;
    println!(rt; "{name}")?;
    for walk in text.as_str().split('#').skip(1) {
        let written = run_walk(rt.alloc(), walk)?;
        rt.print(written.as_str())?;
    }
    Ok(())
}

fn main(rt: HostRuntime) -> io::Result<()> {
    let mut names = env::args(&rt)?;
    let _program = names.next();
    for name in names {
        run_file(&rt, name.as_str())?;
    }
    Ok(())
}
