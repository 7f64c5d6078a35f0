//! Takes a message in and reports what came.
//!
//! `intake [--chunked] [--parcel N] [FILE]` reads FILE, or standard input, in parcels of N bytes.
#![tactic(auto)]

ghost use Rattle.std.specs.Prelude.{◌≡◌, ◌/◌, ◌<◌, replicate, IfOk};

mod options;
mod report;

use anyhow::anyhow;
use chunked::Chunked;
use options::Options;
use report::Report;
use source::Parcels;
use std::alloc::{AllocError, Global};
use std::fs;
use std::io::Read;
use std::process::ExitCode;

// As in `decode` but for the name: a shared one would be a public function, and none can be held to what is printed.
fn main(rt: HostRuntime) -> ExitCode {
    match run(&rt) {
        Ok(()) => ExitCode::SUCCESS,
        Err(error) => {
            let _ = eprintln!(rt; "intake: {error}");
            ExitCode::FAILURE
        }
    }
}

fn run(rt: &HostRuntime) -> anyhow::Result<()> {
    let options = Options::parse(rt)?;
    let bytes = read_all(rt, &options)?;
    let lengths = parcel_lengths(rt.alloc(), bytes.len(), options.parcel)?;
    let parcels = Parcels::new(bytes.as_slice(), lengths.as_slice());
    let report = if options.chunked {
        Report::of(Chunked::new(parcels))
    } else {
        Report::of(parcels)
    };
    println!(rt; "{report}")?;
    Ok(())
}

// The same stands in `decode`: shared it would be a public function, and of what a file gives no contract can speak.
fn read_all(rt: &HostRuntime, options: &Options) -> anyhow::Result<Vec<u8>> {
    match &options.file {
        Some(path) => match fs::read(rt, path.as_str()) {
            Ok(bytes) => Ok(bytes),
            Err(error) => Err(anyhow!(format!(in rt.alloc(); "cannot read '{path}': {error}")?)),
        },
        None => {
            let mut bytes = Vec::new(rt.alloc());
            rt.stdin().read_to_end(&mut bytes)?;
            Ok(bytes)
        }
    }
}

/// The lengths of the whole parcels; the bytes behind them are one more.
fn parcel_lengths(heap: Global, total: usize, parcel: u32) -> Result<Vec<u32>, AllocError>
    requires { 0 < parcel }
    ensures { IfOk result (λ v. v.items ≡ replicate (total / parcel) parcel) }
{
    vec![in heap; parcel; total / parcel as usize]
}
