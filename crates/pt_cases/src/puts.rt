//! Each put of a command fails in turn.

use crate::commands::{CommandScript, empty_pages};
use std::alloc::{AllocError, Global};
use std::sync::Wait;
use std::thread::Threads;

/// What a command wrote, and its status.
#[derive(Drop)]
struct Written {
    text: String,
    status: u8,
}

/// A put that fails: its number from 0, how many bytes of its line it takes, and how many bytes are put until then.
#[derive(Clone, Copy)]
struct Cut {
    put: u64,
    taken: usize,
    bytes: usize,
}

/// Runs a command, and then again so that each of its puts fails in turn, having taken no byte, one, or all but one of its line.
/// Gives how many such runs there were, and a line for each that didn't end with status 8 and what was put until then.
pub fn fail_each_put<R: Threads + Wait + Sync>(
    script: &CommandScript,
    rt: &R,
    alloc: Global,
    command: &str,
) -> Result<String, AllocError> {
    let whole = put_by(script, rt, alloc, command, None)?.text;
    let cuts = cuts_of(alloc, &whole)?;
    let mut report = String::new(alloc);
    write!(report, "$ {command}\n")?;
    for Cut { put, taken, bytes } in cuts.as_slice() {
        let part = put_by(script, rt, alloc, command, Some((*put, *taken)))?;
        if !is_part(&part, &whole, *bytes) {
            let (status, text) = (part.status, &part.text);
            write!(
                report,
                "put {put} that takes {taken}: status {status}\n{text}\n"
            )?;
        }
    }
    let count = cuts.len();
    write!(report, "{count} puts failed\n")?;
    Ok(report)
}

/// Each line of a text, cut in three ways.
fn cuts_of(alloc: Global, whole: &str) -> Result<Vec<Cut>, AllocError> {
    let mut cuts = Vec::new(alloc);
    let mut put: u64 = 0;
    let mut before: usize = 0;
    for line in whole.split_inclusive('\n') {
        let len = line.len();
        for taken in [0, 1, len.saturating_sub(1)] {
            let bytes = before.saturating_add(taken);
            cuts.push(Cut { put, taken, bytes })?;
        }
        put = put.saturating_add(1);
        before = before.saturating_add(len);
    }
    Ok(cuts)
}

/// Whether this is what a put leaves that failed after so many bytes of the whole text.
fn is_part(part: &Written, whole: &str, bytes: usize) -> bool {
    part.status == 8 && part.text.len() == bytes && whole.starts_with(part.text.as_str())
}

/// What a command writes, one put of which fails, if any.
fn put_by<R: Threads + Wait + Sync>(
    script: &CommandScript,
    rt: &R,
    alloc: Global,
    command: &str,
    put: Option<(u64, usize)>,
) -> Result<Written, AllocError> {
    let mut pages = empty_pages(alloc, put)?;
    let outcome = script.outcome(rt, alloc, command, &mut pages)?;
    let status = outcome.status;
    outcome.discard();
    let mut text = String::new(alloc);
    text.push_str(&String::from_utf8_lossy(alloc, pages.out.bytes())?)?;
    drop(pages);
    Ok(Written { text, status })
}
