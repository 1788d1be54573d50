//! Makes calls that take memory, one after another, and says of each whether what it was given stands as before where memory is
//! refused. `hostile/refusals` starts it so often that each allocation fails once.
#![tactic(auto)]

use std::io;

mod blocks;
mod clusters;
mod files;
mod forms;
mod lists;
mod outcome;
mod runs;
mod scripts;
mod streams;
mod strings;
mod tables;
mod texts;

fn main(rt: HostRuntime) -> io::Result<()> {
    lists::report(&rt, rt.alloc())?;
    strings::report(&rt, rt.alloc())?;
    streams::report(&rt, rt.alloc())?;
    tables::report(&rt, rt.alloc())?;
    texts::report(&rt, rt.alloc())?;
    scripts::report(&rt, rt.alloc())?;
    blocks::report(&rt, rt.alloc())?;
    forms::report(&rt, rt.alloc())?;
    clusters::report(&rt, rt.alloc())?;
    files::report(&rt, rt.alloc())?;
    runs::report(&rt, rt.alloc())
}
