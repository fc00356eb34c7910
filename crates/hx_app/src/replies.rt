//! Replies, and those to an input that is refused.
ghost use Rattle.std.specs.Prelude.{IfOk};
ghost use Rattle.hx_app.specs.Replies.{AnswersAs, description_answer, script_answer};

use crate::kind_names::{desc_kind_name, script_kind_name};
use crate::statuses::Status;
use hx_forms::DescFault;
use hx_script::ScriptFault;
use hx_text::{Page, Piece};
use std::alloc::{AllocError, Global};

/// A status with its text.
#[derive(Drop)]
pub struct Reply {
    pub status: Status,
    pub text: Page,
}

/// The answer to a description with a fault.
pub fn refuse_description(alloc: Global, fault: &DescFault) -> Result<Reply, AllocError>
    ensures { IfOk result (AnswersAs (description_answer fault.now)) }
{
    let mut text = Page::new(alloc);
    text.push_all(&[
        Piece::Text("description "),
        Piece::Text(desc_kind_name(fault.kind)),
        Piece::Text(" "),
        Piece::Text(fault.path.as_str()),
        Piece::Text("\n"),
    ])?;
    Ok(Reply {
        status: Status::DESCRIPTION_REFUSED,
        text,
    })
}

/// The answer to a script with a fault.
pub fn refuse_script(alloc: Global, fault: &ScriptFault) -> Result<Reply, AllocError>
    ensures { IfOk result (AnswersAs (script_answer fault.now)) }
{
    let mut text = Page::new(alloc);
    text.push_all(&[
        Piece::Text("script "),
        Piece::Number(fault.line as u64),
        Piece::Text(" "),
        Piece::Text(script_kind_name(fault.kind)),
        Piece::Text("\n"),
    ])?;
    Ok(Reply {
        status: Status::SCRIPT_REFUSED,
        text,
    })
}
