//! The order that the words ask for.

ghost use Rattle.std.specs.Prelude.{◌≡◌, ◌==◌, IfOk, IfSome, codes, length, map, option_map, string_bytes};
ghost use Rattle.pt_words.specs.Grammar.{audit_of, claims_in, clock_in, file_of, has_claims_alone, is_bare, log_in, make_of, meaning_of, only_word, order_by, order_of, order_over, order_with, pair_in, replay_of, run_of, usual_file, verb_of, workers_in};
ghost use Rattle.pt_words.specs.Claims.{HasFewClaims};
ghost use Rattle.pt_words.specs.Views.{file_in, in_words, texts_in, viewed, values_of};

use crate::orders::{ClockChoice, Command, GraphFile, Order};
use crate::reading::words_command;
use crate::short::has_short;
use crate::values::{USUAL_CLAIMS, claims_of, clock_of, made_number_of, workers_of};
use clap::ArgMatches;
use clap::error::ErrorKind;
use std::alloc::{AllocError, Global};

/// The word of a command.
#[derive(Clone, Copy)]
enum Verb {
    Run,
    Check,
    Meaning,
    Make,
    Migrate,
    Slacks,
    Audit,
    Replay,
}

/// The values that clap read from the words after the command.
#[derive(Clone, Copy)]
struct Values<'m, 'a> {
    graphs: Option<&'m [&'a str]>,
    workers: Option<&'m [&'a str]>,
    clocks: Option<&'m [&'a str]>,
    claims: Option<&'m [&'a str]>,
    logs: Option<&'m [&'a str]>,
}

/// The order that these words ask for, those after the program's name; `None` if the command line is not valid.
///
/// The first word is the command. Options come before or after the one positional word, the graph file or a number, in any
/// order, each at most once; `audit` and `replay` have two positional words, the graph file and then the log or the recording. A
/// value is the next word, or follows `=` in the same word; `--log` takes none. A word `--` ends the options. Any other word that
/// begins with `-` and is longer is refused, also as a value.
///
/// `run g.json --workers 2 --log` is `Run` of `g.json` with 2 workers, the paced clock, 200,000 claims and the log; `run g.json --workers 0` is
/// none, since there are 1 to 64 workers.
pub fn order<'a>(alloc: Global, words: &'a [String]) -> Result<Option<Order<'a>>, AllocError>
    ensures order { IfOk result (λ order. option_map in_words order ≡ order_of words.entry.now) }
    ensures few { IfOk result (λ order. IfSome order (λ order. HasFewClaims (in_words order))) }
{
    let [first, rest @ ..] = words else {
        return Ok(None);
    };
    match verb_of(first.as_str()) {
        None => Ok(None),
        Some(verb) => order_with(alloc, verb, rest),
    }
}

/// The command that a word names.
fn verb_of(word: &str) -> Option<Verb>
    ensures { result ≡ verb_of word.now }
{
    match word {
        "run" => Some(Verb::Run),
        "check" => Some(Verb::Check),
        "meaning" => Some(Verb::Meaning),
        "make" => Some(Verb::Make),
        "migrate" => Some(Verb::Migrate),
        "slacks" => Some(Verb::Slacks),
        "audit" => Some(Verb::Audit),
        "replay" => Some(Verb::Replay),
        _ => None,
    }
}

/// The order that a command asks for with these words.
fn order_with<'a>(
    alloc: Global,
    verb: Verb,
    words: &'a [String],
) -> Result<Option<Order<'a>>, AllocError>
    ensures { IfOk result (λ order. option_map in_words order
        ≡ order_with verb (map string_bytes words.entry.now)) }
{
    if has_short(words) {
        return Ok(None);
    }
    let reader = words_command(alloc)?;
    match reader.try_get_matches_from(words) {
        Ok(matches) => Ok(order_by(verb, values_in(&matches))),
        Err(error) => match error.kind() {
            ErrorKind::OutOfMemory => Err(AllocError),
            _ => Ok(None),
        },
    }
}

/// The values that clap read.
fn values_in<'m, 'a>(matches: &'m ArgMatches<'a>) -> Values<'m, 'a>
    ensures graphs { texts_in result.graphs ≡ values_of matches.entry.now (codes "graph") }
    ensures workers { texts_in result.workers ≡ values_of matches.entry.now (codes "workers") }
    ensures clocks { texts_in result.clocks ≡ values_of matches.entry.now (codes "clock") }
    ensures claims { texts_in result.claims ≡ values_of matches.entry.now (codes "claims") }
    ensures logs { texts_in result.logs ≡ values_of matches.entry.now (codes "log") }
{
    Values {
        graphs: matches.get_strs("graph"),
        workers: matches.get_strs("workers"),
        clocks: matches.get_strs("clock"),
        claims: matches.get_strs("claims"),
        logs: matches.get_strs("log"),
    }
}

/// The order that a command asks for with these values.
fn order_by<'m, 'a>(verb: Verb, values: Values<'m, 'a>) -> Option<Order<'a>>
    ensures { option_map in_words result ≡ order_by verb (viewed values.entry) }
{
    match verb {
        Verb::Audit => audit_of(values),
        Verb::Replay => replay_of(values),
        _ => order_over(verb, values, graph_in(values.graphs)?),
    }
}

/// The order that a command with one positional word asks for with that word.
fn order_over<'m, 'a>(verb: Verb, values: Values<'m, 'a>, word: &'a str) -> Option<Order<'a>>
    ensures { option_map in_words result ≡ order_over verb (viewed values.entry) word.entry.now }
{
    match verb {
        Verb::Run => run_of(values, word),
        Verb::Check if is_bare(values) => Some(Order::Over {
            command: Command::Check,
            graph: usual_file(word),
        }),
        Verb::Meaning => meaning_of(values, word),
        Verb::Make => make_of(values, word),
        Verb::Migrate if is_bare(values) => Some(Order::Migrate {
            graph: usual_file(word),
        }),
        Verb::Slacks if is_bare(values) => Some(Order::Over {
            command: Command::Slacks,
            graph: usual_file(word),
        }),
        _ => None,
    }
}

/// A graph file with the usual number of claims.
fn usual_file<'a>(name: &'a str) -> GraphFile<'a>
    ensures { file_in result ≡ usual_file name.entry.now }
{
    GraphFile {
        name,
        claims: USUAL_CLAIMS,
    }
}

/// A graph file with the number of claims that the words state.
fn file_of<'m, 'a>(values: Values<'m, 'a>, name: &'a str) -> Option<GraphFile<'a>>
    ensures { option_map file_in result ≡ file_of (viewed values.entry) name.entry.now }
{
    let claims = claims_in(values.claims)?;
    Some(GraphFile { name, claims })
}

/// A run of a graph file.
fn run_of<'m, 'a>(values: Values<'m, 'a>, name: &'a str) -> Option<Order<'a>>
    ensures { option_map in_words result ≡ run_of (viewed values.entry) name.entry.now }
{
    let workers = workers_in(values.workers)?;
    let clock = clock_in(values.clocks)?;
    let log = log_in(values.logs)?;
    let graph = file_of(values, name)?;
    let command = Command::Run {
        workers,
        clock,
        log,
    };
    Some(Order::Over { command, graph })
}

/// The meaning of a graph file.
fn meaning_of<'m, 'a>(values: Values<'m, 'a>, name: &'a str) -> Option<Order<'a>>
    ensures { option_map in_words result ≡ meaning_of (viewed values.entry) name.entry.now }
{
    if !has_claims_alone(values) {
        return None;
    }
    let graph = file_of(values, name)?;
    Some(Order::Over {
        command: Command::Meaning,
        graph,
    })
}

/// A run of an input made from a number.
fn make_of<'m, 'a>(values: Values<'m, 'a>, word: &'a str) -> Option<Order<'a>>
    ensures { option_map in_words result ≡ make_of (viewed values.entry) word.entry.now }
{
    if !is_absent(values.claims) || !is_absent(values.clocks) || !is_absent(values.logs) {
        return None;
    }
    let number = made_number_of(word)?;
    let workers = workers_in(values.workers)?;
    Some(Order::Make { number, workers })
}

/// An audit of a log, with the graph file and the log.
fn audit_of<'m, 'a>(values: Values<'m, 'a>) -> Option<Order<'a>>
    ensures { option_map in_words result ≡ audit_of (viewed values.entry) }
{
    if !has_claims_alone(values) {
        return None;
    }
    let (name, log) = pair_in(values.graphs)?;
    let graph = file_of(values, name)?;
    Some(Order::Audit { graph, log })
}

/// A replay with a recording, with the graph file and the recording.
fn replay_of<'m, 'a>(values: Values<'m, 'a>) -> Option<Order<'a>>
    ensures { option_map in_words result ≡ replay_of (viewed values.entry) }
{
    if !is_absent(values.clocks) {
        return None;
    }
    let (name, air) = pair_in(values.graphs)?;
    let workers = workers_in(values.workers)?;
    let log = log_in(values.logs)?;
    let graph = file_of(values, name)?;
    Some(Order::Replay {
        graph,
        air,
        workers,
        log,
    })
}

/// Whether no option is given.
fn is_bare<'m, 'a>(values: Values<'m, 'a>) -> bool
    ensures { result ≡ is_bare (viewed values.entry) }
{
    is_absent(values.claims) && has_claims_alone(values)
}

/// Whether no option is given but the number of claims.
fn has_claims_alone<'m, 'a>(values: Values<'m, 'a>) -> bool
    ensures { result ≡ has_claims_alone (viewed values.entry) }
{
    is_absent(values.workers) && is_absent(values.clocks) && is_absent(values.logs)
}

/// Whether an option is not given.
fn is_absent<'m, 'a>(words: Option<&'m [&'a str]>) -> bool
    ensures { result ≡ (length (texts_in words.entry) == 0) }
{
    match words {
        None | Some([]) => true,
        _ => false,
    }
}

/// The positional word, if there is exactly one and it isn't empty.
fn graph_in<'m, 'a>(words: Option<&'m [&'a str]>) -> Option<&'a str>
    ensures { option_map (λ word. word.now) result ≡ only_word (texts_in words.entry) }
{
    match words {
        Some([word]) if !word.is_empty() => Some(*word),
        _ => None,
    }
}

/// The positional words, if there are exactly two and neither is empty.
fn pair_in<'m, 'a>(words: Option<&'m [&'a str]>) -> Option<(&'a str, &'a str)>
    ensures { option_map (λ pair. (pair.0.now, pair.1.now)) result
        ≡ pair_in (texts_in words.entry) }
{
    match words {
        Some([first, second]) if !first.is_empty() && !second.is_empty() => Some((*first, *second)),
        _ => None,
    }
}

/// The number of workers; 4 by default.
fn workers_in<'m, 'a>(words: Option<&'m [&'a str]>) -> Option<u32>
    ensures { result ≡ workers_in (texts_in words.entry) }
{
    match words {
        None | Some([]) => Some(4),
        Some([value]) => workers_of(value),
        _ => None,
    }
}

/// The clock; paced by default.
fn clock_in<'m, 'a>(words: Option<&'m [&'a str]>) -> Option<ClockChoice>
    ensures { result ≡ clock_in (texts_in words.entry) }
{
    match words {
        None | Some([]) => Some(ClockChoice::Paced),
        Some([value]) => clock_of(value),
        _ => None,
    }
}

/// The number of claims that a platform may make; the usual one by default.
fn claims_in<'m, 'a>(words: Option<&'m [&'a str]>) -> Option<u64>
    ensures { result ≡ claims_in (texts_in words.entry) }
{
    match words {
        None | Some([]) => Some(USUAL_CLAIMS),
        Some([value]) => claims_of(value),
        _ => None,
    }
}

/// Whether the log is written too; not by default.
fn log_in<'m, 'a>(words: Option<&'m [&'a str]>) -> Option<bool>
    ensures { result ≡ log_in (texts_in words.entry) }
{
    match words {
        None | Some([]) => Some(false),
        Some([_]) => Some(true),
        _ => None,
    }
}
