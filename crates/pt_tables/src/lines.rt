//! Single lines of the log. The names in them are short, so that each has room in a `LineBuffer`.

ghost use Rattle.std.specs.Prelude.{◌≡◌, ◌+◌, ◌≤◌, ◌++◌, ◌∷◌, [], OnOk, codes, length, string_bytes};
ghost use Rattle.std.specs.Fmt.{decimal, signed_decimal};
ghost use Rattle.pt_types.specs.declared.firing.Done.{Done};
ghost use Rattle.pt_types.specs.declared.firing.Task.{Task};
ghost use Rattle.pt_history.specs.Tasks.{mark_of};
ghost use Rattle.pt_tables.specs.Names.{HasShortNames};
ghost use Rattle.pt_tables.specs.Log.{claim_line, message_line, post_line, row_line, sent_line, take_line, turn_line};

use crate::line::LineBuffer;
use crate::names::{receiver_name, sender_name};
use crate::pen::Pen;
use pt_history::Mark;
use pt_tags::{Message, Tag};
use pt_types::{Graph, OnLink, Row, RowAt};
use std::alloc::AllocError;

/// Appends the line of a turn, or of a run of quiet turns: `turn,PLATFORM,FIRST,LAST,COUNT`, as `turn,p,55,61,2`.
pub fn push_turn_line(
    text: &mut String,
    platform: &str,
    first: u64,
    last: u64,
    count: u64,
) -> Result<(), AllocError>
    requires { length platform.now ≤ 32 }
    ensures { OnOk result (string_bytes text.new
        ≡ string_bytes text.old ++ turn_line platform.now first last count) }
{
    let mut line = LineBuffer::new();
    line.field(count);
    line.field(last);
    line.field(first);
    line.begin("turn", platform);
    text.push_str(line.as_str())
}

/// Writes the line of the posted result of a task, which is given without its inputs: `post,NUMBER`.
#[inline(always)]
pub(crate) fn write_post(line: &mut LineBuffer, task: Mark)
    ensures { (done : Done) → mark_of done.task ≡ task → line.new ≡ post_line done }
{
    line.end();
    line.number(task.number);
    line.text("post,");
}

/// Writes the line of a row that entered: `row,SENSOR,TIME,SEEN,VALUE`.
#[inline(always)]
pub(crate) fn write_row(line: &mut LineBuffer, graph: &Graph, at: &RowAt)
    requires { HasShortNames graph.now }
    ensures { line.new ≡ row_line graph.now at.now }
{
    let RowAt { sensor, row } = *at;
    let Row { time, seen, value } = row;
    line.end();
    line.value(value);
    line.field(seen);
    line.field(time);
    line.begin("row", graph.actor_name(sensor));
}

/// Writes the line of a message taken: `take,RECEIVER,TIME,STEP,VALUE` or `take,RECEIVER,end`.
pub(crate) fn write_taken(line: &mut LineBuffer, graph: &Graph, taken: &OnLink)
    requires { HasShortNames graph.now }
    ensures { line.new ≡ take_line graph.now taken.now }
{
    write_message(
        line,
        "take",
        receiver_name(graph, taken.link),
        taken.message,
    );
}

/// Writes the line of a claim, which is given without its inputs: `claim,NUMBER,ACTOR,TIME,STEP`.
#[inline(always)]
pub(crate) fn write_claim(pen: &mut Pen, graph: &Graph, claim: Mark)
    requires { HasShortNames graph.now }
    ensures { (task : Task) → mark_of task ≡ claim → pen.new.line ≡ claim_line graph.now task }
{
    pen.end.renew(claim.tag);
    pen.line.copy_short(pen.end.line());
    pen.line.text(graph.actor_name(claim.actor));
    pen.line.put(b',');
    pen.line.number(claim.number);
    pen.line.text("claim,");
}

/// Writes the line of a message sent: `sent,SENDER,TIME,STEP,VALUE` or `sent,SENDER,end`.
pub(crate) fn write_sent(line: &mut LineBuffer, graph: &Graph, sent: &OnLink)
    requires { HasShortNames graph.now }
    ensures { line.new ≡ sent_line graph.now sent.now }
{
    write_message(line, "sent", sender_name(graph, sent.link), sent.message);
}

/// Writes the line of a message at one end of a link.
#[inline(always)]
fn write_message(line: &mut LineBuffer, word: &str, name: &str, message: Message)
    requires { length word.now + length name.now ≤ 62 }
    ensures { line.new ≡ message_line word.now name.now message }
{
    match message {
        Message::Event { tag, value } => write_event(line, word, name, tag, value),
        Message::End => write_last(line, word, name),
    }
}

/// Writes the line of an event at one end of a link.
#[inline(always)]
fn write_event(line: &mut LineBuffer, word: &str, name: &str, tag: Tag, value: i64)
    requires { length word.now + length name.now ≤ 62 }
    ensures { line.new ≡ message_line word.now name.now (Message.Event tag value) }
{
    line.end();
    line.value(value);
    line.field(tag.step);
    line.field(tag.time);
    line.begin(word, name);
}

/// Writes the line of the end of a link, at one end of it.
fn write_last(line: &mut LineBuffer, word: &str, name: &str)
    requires { length word.now + length name.now ≤ 62 }
    ensures { line.new ≡ message_line word.now name.now Message.End }
{
    line.clear();
    line.text(",end\n");
    line.begin(word, name);
}
