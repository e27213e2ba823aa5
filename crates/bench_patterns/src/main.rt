//! Fits the pattern in the first line of standard input to the text in the second, as often as the first argument says,
//! and prints how often it fitted.
#![tactic(auto)]

use anyhow::{Context, Result};
use qz_text::{Pattern, Typed};
use std::env;

fn main(rt: HostRuntime) -> Result<()> {
    let alloc = rt.alloc();
    let mut words = env::args(&rt)?.skip(1);
    let rounds = words
        .next()
        .context("no number of rounds")?
        .parse::<u32>()
        .context("reading the rounds")?;
    let mut lines = rt.lines(alloc);
    let pattern = lines.next().context("no pattern")??;
    let text = lines.next().context("no text")??;
    let pattern = Pattern::of(alloc, pattern.as_str()).ok().context("memory")?;
    let typed = Typed::of(alloc, text.as_str()).ok().context("memory")?;
    let mut fitted = 0u32;
    for _ in 0..rounds {
        if pattern.fits(&typed) {
            fitted = fitted.wrapping_add(1);
        }
    }
    println!(rt; "{fitted}")?;
    Ok(())
}
