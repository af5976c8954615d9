//! A program that uses the store's crates as libraries. It makes a table, opens it and looks keys up, and it keeps a store
//! on a disk in memory. `docs/LIBRARY.md` goes through it.
#![tactic(auto)]

mod stores;
mod tables;

use st_base::Scratch;
use std::io;
use std::str::from_utf8;

// A value as text.
fn text_of(value: Option<&[u8]>) -> &str {
    match value {
        Some(bytes) => from_utf8(bytes).unwrap_or("not text"),
        None => "none",
    }
}

// Makes a table and looks three keys up in it.
fn look_up(rt: &(impl Print + AllocGlobal)) -> io::Result<()> {
    let Some(bytes) = tables::make_table(rt.alloc()) else {
        return println!(rt; "no table");
    };
    println!(rt; "a table of {} bytes", bytes.len())?;
    let Some(table) = tables::open_table(rt.alloc(), bytes) else {
        return println!(rt; "no table");
    };
    let mut scratch = Scratch::new(rt.alloc())?;
    for key in ["apple", "banana", "fig"] {
        let value = tables::value_in(&table, key.as_bytes(), &mut scratch);
        println!(rt; "{key}: {}", text_of(value))?;
    }
    Ok(())
}

fn main(rt: HostRuntime) -> io::Result<()> {
    look_up(&rt)?;
    match stores::write_and_read(rt.alloc()) {
        Some(value) => println!(rt; "fig: {}", text_of(Some(value.as_bytes()))),
        None => println!(rt; "no value"),
    }
}
