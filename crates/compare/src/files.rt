// What the arguments ask for, read from its files.
use crate::comparison::Comparison;
use crate::sides::Side;
use board_text::events::{ListFault, list_of};
use history::call::Event;
use std::{env, fs, io};

// The comparison of each group of four names, in the order of the arguments.
pub fn read_comparisons(rt: &HostRuntime) -> io::Result<Vec<Comparison>> {
    let mut names = env::args(rt)?;
    let _program = names.next();
    let names: Vec<String> = names.collect(rt.alloc())?;
    let (groups, rest) = names.as_slice().as_chunks::<4>();
    if groups.is_empty() || !rest.is_empty() {
        eprintln!(rt; "usage: compare [OLD.dtb OLD.events NEW.dtb NEW.events]...")?;
        return Err(io::Error::from(io::ErrorKind::InvalidInput));
    }
    let mut comparisons = Vec::new(rt.alloc());
    for [old_blob, old_list, new_blob, new_list] in groups {
        let old = read_side(rt, old_blob.as_str(), old_list.as_str())?;
        let new = read_side(rt, new_blob.as_str(), new_list.as_str())?;
        comparisons.push(Comparison { old, new })?;
    }
    Ok(comparisons)
}

// One side: a blob, and the calls of a list.
fn read_side(rt: &HostRuntime, blob: &str, list: &str) -> io::Result<Side> {
    Ok(Side {
        blob: read(rt, blob)?,
        events: read_list(rt, list)?,
    })
}

// The bytes of a file.
fn read(rt: &HostRuntime, name: &str) -> io::Result<Vec<u8>> {
    match fs::read(rt, name) {
        Ok(bytes) => Ok(bytes),
        Err(error) => {
            eprintln!(rt; "compare: cannot read {name}: {error}")?;
            Err(error)
        }
    }
}

// The calls of a file, none of them answered.
fn read_list(rt: &HostRuntime, name: &str) -> io::Result<Vec<Event>> {
    let bytes = read(rt, name)?;
    let list = list_of(rt.alloc(), bytes.as_slice());
    if let Err(ListFault::Line(number)) = list {
        eprintln!(rt; "compare: {name}, line {number}: not a call")?;
    }
    Ok(list?)
}
