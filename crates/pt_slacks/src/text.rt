//! The text of slacks.

ghost use Rattle.std.specs.Prelude.{◌≡◌, ◌++◌, IfOk, OnOk, string_bytes};
ghost use Rattle.pt_slacks.specs.Text.{slacks_head, slack_line, slacks_text};

use crate::slack::Slack;
use pt_types::Graph;
use std::alloc::{AllocError, Global};

/// Slacks as text: the header line `actor,slack`, then a line for each, with the name of its actor and the slack in
/// microseconds, as `w,11`.
pub fn slacks_text(alloc: Global, graph: &Graph, slacks: &[Slack]) -> Result<String, AllocError>
    ensures { IfOk result (λ text. string_bytes text ≡ slacks_text graph.now slacks.now) }
{
    let mut text = String::new(alloc);
    push_head(&mut text)?;
    for entry in slacks {
        push_line(&mut text, graph.actor_name(entry.actor), entry.slack)?;
    }
    Ok(text)
}

/// Appends the header line.
fn push_head(text: &mut String) -> Result<(), AllocError>
    ensures { OnOk result (string_bytes text.new ≡ string_bytes text.old ++ slacks_head) }
{
    text.push_str("actor,slack\n")
}

/// Appends the line of an actor.
fn push_line(text: &mut String, name: &str, slack: u64) -> Result<(), AllocError>
    ensures { OnOk result (string_bytes text.new
        ≡ string_bytes text.old ++ slack_line name.now slack) }
{
    write!(text, "{name},{slack}\n")
}
