// The printing program on many inputs, its output held to what is expected of each.
// The arguments are pairs of files: an input, NAME.in, and the whole output expected of it.
#![tactic(auto)]

ghost use Rattle.std.specs.Prelude.{◌≤◌};

use std::env::Env;
use std::fs::File;
use std::io::{Read, Write};
use std::{io, str};

// As long as any path may be.
const PATH: usize = 4096;

// A writer that compares what it is given with a file.
#[derive(Drop)]
struct Expected {
    file: File,
    same: bool,
}

impl Expected {
    // Whether the file ends here.
    fn ends(&mut self) -> bool {
        let mut got = [0u8; 1];
        self.file.read(&mut got).unwrap_or(0) == 0
    }
}

impl Write for Expected {
    fn write(&mut self, text: &[u8]) -> io::Result<usize> {
        for &byte in text {
            let mut got = [0u8; 1];
            let n = self.file.read(&mut got).unwrap_or(0);
            self.same = self.same && n == 1 && got[0] == byte;
        }
        Ok(text.len())
    }

    fn flush(&mut self) -> io::Result<()> {
        Ok(())
    }
}

// The file that a path names; a path that is no UTF-8 names none that can be opened.
fn open(rt: &HostRuntime, path: &[u8]) -> io::Result<File> {
    match str::from_utf8(path) {
        Ok(path) => File::open(rt, path),
        Err(_) => Err(io::Error::from(io::ErrorKind::InvalidInput)),
    }
}

// Whether the file that the k-th argument names is what is printed of an input.
fn held_to(rt: &HostRuntime, k: usize, input: &[u8]) -> bool {
    let mut path = [0u8; PATH];
    let Ok(length) = rt.arg(k, &mut path) else {
        return false;
    };
    let Ok(file) = open(rt, &path[..length]) else {
        return false;
    };
    let mut expected = Expected { file, same: true };
    printing::print(input, &mut expected).is_ok() && expected.same && expected.ends()
}

// NAME ok, or NAME differs, of NAME.in.
fn report(rt: &HostRuntime, path: &[u8], same: bool) -> io::Result<()> {
    let mut out = io::writer(rt);
    out.write_all(&path[..path.len().saturating_sub(3)])?;
    if same {
        out.write_all(b" ok\n")
    } else {
        out.write_all(b" differs\n")
    }
}

// Says on standard error that the file cannot be opened, and why.
fn fail(rt: &HostRuntime, path: &[u8], error: io::Error) -> io::Result<()> {
    rt.stderr().write_all(path)?;
    eprintln!(rt; ": {error}")
}

// The case whose input the k-th argument names; false where there is none.
fn one(rt: &HostRuntime, k: usize) -> io::Result<bool>
    requires { k ≤ 100000 }
{
    let mut path = [0u8; PATH];
    let Ok(length) = rt.arg(k, &mut path) else {
        return Ok(false);
    };
    let mut file = match open(rt, &path[..length]) {
        Ok(file) => file,
        Err(error) => {
            fail(rt, &path[..length], error)?;
            return Ok(false);
        }
    };
    let mut bytes = [0u8; 65537];
    let n = input::fill(&mut file, &mut bytes)?;
    drop(file);
    let same = held_to(rt, k + 1, &bytes[..n]);
    report(rt, &path[..length], same)?;
    Ok(true)
}

fn main(rt: HostRuntime) -> io::Result<()> {
    for k in 0..1000 {
        if !one(&rt, 2 * k + 1)? {
            return Ok(());
        }
    }
    Ok(())
}
