use crate::row::wrong_outcome;
use std::{env, fs, io};

// How many rows a table has; those that give something else than they say are printed.
fn check_table(rt: &HostRuntime, text: &str) -> io::Result<usize> {
    let mut rows = 0usize;
    for line in text
        .lines()
        .filter(|line| !line.is_empty() && !line.starts_with('#'))
    {
        rows = rows.saturating_add(1);
        if let Some(got) = wrong_outcome(rt.alloc(), line)? {
            println!(rt; "{line}: {got}")?;
        }
    }
    Ok(rows)
}

// Runs the tables of the files that the arguments name.
pub fn run_tables(rt: &HostRuntime) -> io::Result<()> {
    let mut names = env::args(rt)?;
    let _program = names.next();
    for name in names {
        let text = fs::read_to_string(rt, name.as_str())?;
        let rows = check_table(rt, text.as_str())?;
        println!(rt; "{name}: {rows} rows")?;
    }
    Ok(())
}
