use crate::node_lines::listing;
use std::io::Write;
use std::{env, fs, io};

// The bytes of a file.
fn read_file(rt: &HostRuntime, name: &str) -> io::Result<Vec<u8>> {
    match fs::read(rt, name) {
        Ok(bytes) => Ok(bytes),
        Err(error) => {
            eprintln!(rt; "inspect: cannot read {name}: {error}")?;
            Err(error)
        }
    }
}

// The listings of the files that the arguments name, on standard output, each under its file's name where there are several, which is
// printed as soon as the file is read; with none a line that says how the program is called.
pub fn list_files(rt: &HostRuntime) -> io::Result<()> {
    let mut names = env::args(rt)?;
    let _program = names.next();
    let several = names.len() > 1;
    if names.len() == 0 {
        eprintln!(rt; "usage: inspect FILE...")?;
        return Err(io::Error::from(io::ErrorKind::InvalidInput));
    }
    for name in names {
        let bytes = read_file(rt, name.as_str())?;
        if several {
            println!(rt; "{name}:")?;
        }
        let out = listing(rt.alloc(), bytes.as_slice())?;
        rt.stdout().write_all(out.as_slice())?;
    }
    Ok(())
}
