//! Prints the trees of texts. The words are names of files, and in front of these `trees` or `places`:
//! whether the trees of the texts are printed, or the place of each node.
//!
//! A file is a frame and, after each line `--`, a text that is at the `@` of the frame.
//!
//! Modules in reading order: `shown` (a tree as a text, and where its nodes stand), `types`,
//! `expressions`, `statements`, `modules`, `packages` (each part of a tree), `texts` (the texts of a
//! file).
#![tactic(auto)]

mod expressions;
mod modules;
mod packages;
mod shown;
mod statements;
mod texts;
mod types;

use crate::texts::{Form, print_file};
use anyhow::Result;
use std::fs;

fn main(rt: HostRuntime) -> Result<()> {
    let words: Vec<String> = std::env::args(&rt)?.skip(1).collect(rt.alloc())?;
    let mut form = Form::Trees;
    for word in words.as_slice() {
        let word = word.as_str();
        if word == "trees" {
            form = Form::Trees;
        } else if word == "places" {
            form = Form::Places;
        } else {
            let file = fs::read_to_string(&rt, word)?;
            print_file(&rt, form, file.as_str())?;
        }
    }
    Ok(())
}
