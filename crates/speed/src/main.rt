//! Times parts of gatebench. The first word names the part, `read`, `edit`, `look` or `step`, and the words behind it say what it
//! is timed over: texts, or sizes. Without words it writes nothing.
#![tactic(auto)]

mod built;
mod clock;
mod edit;
mod look;
mod read;
mod step;

use anyhow::{Result, bail};
use std::env;

fn main(rt: HostRuntime) -> Result<()> {
    let words: Vec<String> = env::args(&rt)?.skip(1).collect(rt.alloc())?;
    let Some((part, words)) = words.as_slice().split_first() else {
        return Ok(());
    };
    match part.as_str() {
        "read" => read::run(&rt, words),
        "edit" => edit::run(&rt, words),
        "look" => look::run(&rt, words),
        "step" => step::run(rt, words),
        _ => bail!("the first word has to be read, edit, look or step"),
    }
}
