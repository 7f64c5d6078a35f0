//! Decodes a body: `decode (--base64 | --quoted) [--time] [FILE]` writes what FILE, or standard input, decodes to.
//!
//! With `--time` it writes how fast the body is decoded, in the best of eight runs, and not the body.
#![tactic(auto)]

mod options;
mod whole;

use anyhow::anyhow;
use options::Options;
use source::End;
use std::fs;
use std::io::{Read, Write};
use std::process::ExitCode;
use std::time::Instant;
use whole::{LONGEST, decode_whole};

// As in `intake` but for the name: a shared one would be a public function, and none can be held to what is printed.
fn main(rt: HostRuntime) -> ExitCode {
    match run(&rt) {
        Ok(()) => ExitCode::SUCCESS,
        Err(error) => {
            let _ = eprintln!(rt; "decode: {error}");
            ExitCode::FAILURE
        }
    }
}

fn run(rt: &HostRuntime) -> anyhow::Result<()> {
    let options = Options::parse(rt)?;
    let raw = read_all(rt, &options)?;
    let mut out = vec![in rt.alloc(); 0; raw.len()]?;
    if options.time {
        return time(rt, &options, raw.as_slice(), out.as_mut_slice());
    }
    let (len, end) = decode_whole(options.coding, raw.as_slice(), out.as_mut_slice())?;
    let decoded = out.as_slice();
    rt.stdout().write_all(&decoded[0..len.min(decoded.len())])?;
    match end {
        End::Clean => Ok(()),
        End::Faulty(fault) => {
            let number = fault.number;
            let place = fault.place;
            Err(anyhow!(format!(in rt.alloc(); "fault {number} at {place}")?))
        }
    }
}

// The same stands in `intake`: shared it would be a public function, and of what a file gives no contract can speak.
fn read_all(rt: &HostRuntime, options: &Options) -> anyhow::Result<Vec<u8>> {
    match &options.file {
        Some(path) => match fs::read(rt, path.as_str()) {
            Ok(bytes) => Ok(bytes),
            Err(error) => Err(anyhow!(format!(in rt.alloc(); "cannot read '{path}': {error}")?)),
        },
        None => {
            let mut bytes = Vec::new(rt.alloc());
            rt.stdin().read_to_end(&mut bytes)?;
            Ok(bytes)
        }
    }
}

/// Writes raw megabytes a second, of the best of eight runs. A body that is too long is refused, and gives nothing; timed is then what
/// its first bytes take.
fn time(rt: &HostRuntime, options: &Options, raw: &[u8], out: &mut [u8]) -> anyhow::Result<()> {
    let first = &raw[..raw.len().min(LONGEST)];
    let mut best = u128::MAX;
    let mut given = 0;
    for _ in 0..8 {
        let start = Instant::now(rt)?;
        match decode_whole(options.coding, first, out) {
            Ok((len, _end)) if raw.len() <= LONGEST => given = len,
            _ => {}
        }
        best = best.min(start.elapsed(rt)?.as_nanos());
    }
    let rate = (raw.len() as u128).saturating_mul(1000) / best.max(1);
    println!(rt; "raw {} decoded {given} MB/s {rate}", raw.len())?;
    Ok(())
}
