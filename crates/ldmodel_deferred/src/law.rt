//! Laws of deferred streams: each function does nothing, and its contract is the law.

ghost use Rattle.std.specs.Prelude.{◌≡◌, ◌++◌, ℕ, List, []};
ghost use Rattle.ldmodel.specs.Answers as session;
ghost use Rattle.ldmodel.specs.Commands as session_commands;
ghost use Rattle.ldmodel.specs.Commands.{Ask, HasNo, Query};
ghost use Rattle.ldmodel.specs.Project.{Project};
ghost use Rattle.ldmodel_deferred.specs.Answers.{Holding, IsSettled, LinkReply, QueryReply, Replies};
ghost use Rattle.ldmodel_deferred.specs.Answers.{linked_after, settled, with_links, without_links};
ghost use Rattle.ldmodel_deferred.specs.Changes.{AreChanges};
ghost use Rattle.ldmodel_deferred.specs.Commands.{Command, IsCommand, line, spelling};
ghost use Rattle.ldmodel_deferred.specs.declared.changes.ByteRange.{ByteRange};

use ldmodel_laws::streams::{lines_without_feed, one_first_command};

/// The line of a command has no line feed.
pub fn deferred_lines_without_feed()
    ensures { (command : Command) → IsCommand command → HasNo 10 (line command) }
{
    lines_without_feed();
}

/// No command's spelling is a prefix of another's.
pub fn one_first_deferred()
    ensures { (command other : Command) (x y : List ℕ) → IsCommand command → IsCommand other
        → spelling command ++ x ≡ spelling other ++ y → (command ≡ other) × (x ≡ y) }
{
    one_first_command();
}

/// The project is that of a stream without the option that has the same edits and queries.
pub fn same_edits()
    ensures { (old last : Holding) (commands : List Command) (out : List ℕ) → Replies old commands out last
        → (other : List ℕ) × session.Replies old.project (without_links commands) other last.project }
{}

/// A query right after a link has the answer that it has in a stream without the option.
pub fn asked_when_settled()
    ensures { (old new : Holding) (query : Query) (answer : List ℕ) → IsSettled old → QueryReply old query answer new
        → session.Reply old.project (Ask query) answer new.project × IsSettled new }
{}

/// What a stream without the option leads to, a deferred one leads to with `link` after each edit, and there is then
/// the same link: each query has the same answer.
pub fn same_with_links()
    ensures replies { (project last : Project) (commands : List session_commands.Command) (out sent : List ℕ)
        → session.Replies project commands out last
        → (other after : List ℕ) × Replies (settled project sent) (with_links commands) other (settled last after) }
    ensures queries { (project : Project) (query : Query) (answer sent : List ℕ)
        → session.Reply project (Ask query) answer project
        → (after : List ℕ) × QueryReply (settled project sent) query answer (settled project after) }
{}

/// What has changed since no byte was answered has changed since any other image.
pub fn all_is_new()
    ensures { (sent image : List ℕ) (ranges : List ByteRange) → AreChanges [] image ranges
        → AreChanges sent image ranges }
{}
