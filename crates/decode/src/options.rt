use anyhow::{Context, bail};
use coding::Coding;
use std::env;

/// What the command line asks for.
#[derive(Drop)]
pub struct Options {
    pub coding: Coding,
    pub time: bool,
    /// The body's file; standard input where there is none.
    pub file: Option<String>,
}

impl Options {
    pub fn parse(rt: &HostRuntime) -> anyhow::Result<Options> {
        let mut coding = None;
        let mut time = false;
        let mut file = None;
        let mut words = env::args(rt)?;
        let _program = words.next();
        for word in words {
            match word.as_str() {
                "--base64" => coding = Some(Coding::Base64),
                "--quoted" => coding = Some(Coding::Quoted),
                "--time" => time = true,
                option if option.starts_with('-') || file.is_some() => bail!(format!(in rt.alloc();
                    "unknown option or second file '{option}'"
                )?),
                _ => file = Some(word),
            }
        }
        let coding = coding.context("say --base64 or --quoted")?;
        Ok(Options { coding, time, file })
    }
}
