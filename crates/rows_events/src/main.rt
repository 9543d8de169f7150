//! Scenes of the events of a page, one on each line of standard input, and on standard output what each leads to. A scene is a
//! list of steps:
//!
//! - `["path", [3, 1]]`: these are from now on an element and those above it;
//! - `["handlers", [3]]`: these elements have handlers of every kind;
//! - `["add", 3, "click", 0]`, `["drop", 3, "click", 0]`: a function, of which there are four, begins or ends to listen;
//! - `["start", 3, "click"]`, `["next"]`, `["stop"]`: the calls of a dispatch; `next` prints a turn, or `over`.
//!
//! It promises nothing: its answers are compared with `stdout`, which is written from the rules of the dispatch.
#![tactic(auto)]

mod page;
mod scene;
mod step;

use crate::scene::Scene;
use crate::step::Step;
use anyhow::Result;
use rows::Line;
use std::alloc::Global;

fn main(rt: HostRuntime) -> Result<()> {
    for line in rt.lines(rt.alloc()) {
        let line = Line::read(rt.alloc(), &line?)?;
        let answer = answer(rt.alloc(), &line)?;
        println!(rt; "{answer}")?;
    }
    Ok(())
}

fn answer(alloc: Global, line: &Line) -> Result<String> {
    let mut scene = Scene::new(alloc)?;
    let mut answer = String::new(alloc);
    for step in line.arguments() {
        scene.run(alloc, &Step::new(step)?, &mut answer)?;
    }
    Ok(answer)
}
