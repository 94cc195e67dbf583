//! The line of a command of a deferred session.

ghost use Rattle.std.specs.Prelude.{IfNone, IfSome};
ghost use Rattle.ldi_deferred.specs.Heads.{Says, SaysNothing};

use ldi_stream::head::{CommandHead, EditHead, Query, read_head};

/// The line of a command.
#[derive(Clone, Copy, Debug)]
pub enum DeferredHead<'a> {
    /// An edit.
    Edit(EditHead<'a>),
    /// A query.
    Ask(Query),
    /// `link`.
    Link,
    /// `changes`.
    Changes,
}

/// Parses a command's line, without its line feed; `None` if it is no command's.
pub fn read_deferred_head(line: &[u8]) -> Option<DeferredHead<'_>>
    ensures found { IfSome result (λ head. Says line.now head) }
    ensures none { IfNone result (SaysNothing line.now) }
{
    if line == b"link".as_slice() {
        return Some(DeferredHead::Link);
    }
    if line == b"changes".as_slice() {
        return Some(DeferredHead::Changes);
    }
    match read_head(line) {
        None => None,
        Some(CommandHead::Edit(head)) => Some(DeferredHead::Edit(head)),
        Some(CommandHead::Ask(query)) => Some(DeferredHead::Ask(query)),
    }
}
