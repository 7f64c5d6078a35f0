ghost use Rattle.std.specs.Prelude.{◌<◌, ◌≤◌, IfOk};

use anyhow::{Context, anyhow, bail};
use std::alloc::Global;
use std::env;

/// The largest parcel that can be asked for.
const LARGEST_PARCEL: u32 = 16_777_216;

/// What the command line asks for.
#[derive(Drop)]
pub struct Options {
    pub chunked: bool,
    /// How many bytes a parcel has.
    pub parcel: u32,
    /// The message's file; standard input where there is none.
    pub file: Option<String>,
    ghost some: { 0 < parcel },
}

impl Options {
    /// A bare message on standard input, in parcels as the network gives them.
    fn new() -> Options {
        Options {
            chunked: false,
            parcel: 1460,
            file: None,
        }
    }

    pub fn parse(rt: &HostRuntime) -> anyhow::Result<Options> {
        let mut options = Options::new();
        let mut words = env::args(rt)?;
        let _program = words.next();
        while let Some(word) = words.next() {
            match word.as_str() {
                "--chunked" => options.chunked = true,
                "--parcel" => {
                    let size = words.next().context("--parcel wants a number")?;
                    options.parcel = parcel_size(rt.alloc(), size.as_str())?;
                }
                _ => options.take(rt.alloc(), word)?,
            }
        }
        Ok(options)
    }

    /// One word that is no known option: the file.
    fn take(&mut self, heap: Global, word: String) -> anyhow::Result<()> {
        if word.as_str().starts_with('-') {
            bail!(format!(in heap; "unknown option '{word}'")?);
        }
        if self.file.is_some() {
            bail!(format!(in heap; "more than one file: '{word}'")?);
        }
        self.file = Some(word);
        Ok(())
    }
}

fn parcel_size(heap: Global, word: &str) -> anyhow::Result<u32>
    ensures { IfOk result (λ n. (0 < n) × (n ≤ 16777216)) }
{
    match word.parse::<u32>() {
        Ok(n) if n > 0 && n <= LARGEST_PARCEL => Ok(n),
        _ => Err(anyhow!(format!(in heap;
            "--parcel wants a number from 1 to {LARGEST_PARCEL}, not '{word}'"
        )?)),
    }
}
