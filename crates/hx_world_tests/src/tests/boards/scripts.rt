//! Scripts of calls and reads, each for a board of its own.
use crate::tests::boards::calls::{expect_made_small, expect_not_demo};
use crate::tests::boards::fixtures::small;
use crate::tests::boards::reads::{Read, expect_reads};
use crate::tests::boards::steps::fill;
use crate::tests::boards::tables::{Call, Step, Told, expect_calls, expect_steps};
use hx_board::Board;
use std::alloc::Global;
use std::process::Abort;

/// What a script does next.
#[derive(Clone, Copy)]
pub enum Act {
    /// Each call answers so, in order.
    Calls(&'static [(Call, Told)]),
    /// Each step answers so, in order.
    Steps(&'static [(Step, Told)]),
    /// Each read shows this.
    Reads(&'static [Read]),
    /// Each resource that may yet be added is added, and dropped.
    Fill,
    /// The board tells that it was made of the small description for the line 2, with the limit 2.
    MadeSmall,
    /// The board tells that it isn't the demo's.
    NotDemo,
}

fn make(rt: &impl Abort, board: &mut Board, alloc: Global, act: &Act) {
    match act {
        Act::Calls(rows) => expect_calls(rt, board, alloc, *rows),
        Act::Steps(rows) => expect_steps(rt, board, alloc, *rows),
        Act::Reads(rows) => expect_reads(rt, board, *rows),
        Act::Fill => fill(rt, board, alloc),
        Act::MadeSmall => expect_made_small(rt, board, alloc),
        Act::NotDemo => expect_not_demo(rt, board, alloc),
    }
}

/// Plays a script on a board for so many lines, with this limit.
pub fn play(rt: &impl Abort, alloc: Global, made: (u32, u32), script: &[Act]) {
    let mut board = small(rt, alloc, made.0, made.1);
    for act in script {
        make(rt, &mut board, alloc, act);
    }
}
