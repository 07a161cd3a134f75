//! Runs by clocks of their own: the only orders whose call may wait.

ghost use Rattle.std.specs.Prelude.{◌≡◌, IfSome, None};
ghost use Rattle.pt_words.specs.Grammar.{over};
ghost use Rattle.pt_words.specs.Views.{file_in, in_words};
ghost use Rattle.pt_run.specs.Prompt.{IsPrompt, IsPromptFor, command_of};

use pt_words::{ClockChoice, Command, GraphFile, Order};

/// The clocks of a run that goes by clocks of its own.
#[derive(Clone, Copy)]
pub enum OwnClock {
    /// For each platform a clock that reads `start` first, and `step` more at each further reading, in microseconds.
    Steps { start: u64, step: u64 },
    /// The clocks that are handed in.
    Machine,
}

/// A run of a graph file by clocks of its own.
#[derive(Clone, Copy)]
pub struct OwnRun<'a> {
    pub workers: u32,
    pub clock: OwnClock,
    pub log: bool,
    pub graph: GraphFile<'a>,
}

/// The run by clocks of its own that an order asks for, if it asks for one.
pub fn own_run_of<'a>(order: Order<'a>) -> Option<OwnRun<'a>>
    ensures own { IfSome result
        (λ run. in_words order.entry ≡ over (command_of run) (file_in run.graph)) }
    ensures prompt { result ≡ None → IsPrompt (in_words order.entry) }
{
    match order {
        Order::Over { command, graph } => own_run_over(command, graph),
        _ => None,
    }
}

/// The run by clocks of its own that a command on a graph file is, if it is one.
fn own_run_over<'a>(command: Command, graph: GraphFile<'a>) -> Option<OwnRun<'a>>
    ensures own { IfSome result
        (λ run. over command (file_in graph.entry) ≡ over (command_of run) (file_in run.graph)) }
    ensures prompt { result ≡ None → IsPromptFor command }
{
    let (workers, clock, log) = match command {
        Command::Run {
            workers,
            clock,
            log,
        } => (workers, clock, log),
        _ => return None,
    };
    let clock = match clock {
        ClockChoice::Paced => return None,
        ClockChoice::Step { start, step } => OwnClock::Steps { start, step },
        ClockChoice::Machine => OwnClock::Machine,
    };
    Some(OwnRun {
        workers,
        clock,
        log,
        graph,
    })
}
