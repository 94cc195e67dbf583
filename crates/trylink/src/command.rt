//! The commands of a stream.

use crate::printing::split_line;
use ldi_stream::head::{CommandHead, EditHead, PayloadTarget, Query, read_head};
use relink::Edit;
use std::alloc::{AllocError, Global};

/// A command.
#[derive(Drop)]
pub enum Command<'a> {
    /// An edit.
    Make(Edit<'a>),
    /// A query.
    Ask(Query),
}

/// The edit that a payload is for.
fn edit_of<'a>(
    alloc: Global,
    target: PayloadTarget<'a>,
    payload: &'a [u8],
) -> Result<Edit<'a>, AllocError> {
    match target {
        PayloadTarget::Add { name, at } => {
            let bytes = Vec::from_slice(alloc, payload)?;
            Ok(Edit::Add { name, at, bytes })
        }
        PayloadTarget::Replace { name } => {
            let bytes = Vec::from_slice(alloc, payload)?;
            Ok(Edit::Replace { name, bytes })
        }
        PayloadTarget::Script => Ok(Edit::Script { text: payload }),
    }
}

/// The first command of these bytes, and the bytes after it; `None` if they begin no command.
pub fn split_command(
    alloc: Global,
    stream: &[u8],
) -> Result<Option<(Command<'_>, &[u8])>, AllocError> {
    let Some((line, rest)) = split_line(stream) else {
        return Ok(None);
    };
    match read_head(line) {
        None => Ok(None),
        Some(CommandHead::Ask(query)) => Ok(Some((Command::Ask(query), rest))),
        Some(CommandHead::Edit(EditHead::Move { name, to })) => {
            Ok(Some((Command::Make(Edit::Move { name, to }), rest)))
        }
        Some(CommandHead::Edit(EditHead::Remove { name })) => {
            Ok(Some((Command::Make(Edit::Remove { name }), rest)))
        }
        Some(CommandHead::Edit(EditHead::WithPayload { target, count })) => {
            let Some((payload, rest)) = rest.split_at_checked(count) else {
                return Ok(None);
            };
            Ok(Some((Command::Make(edit_of(alloc, target, payload)?), rest)))
        }
    }
}
