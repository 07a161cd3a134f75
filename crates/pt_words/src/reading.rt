//! The clap command that reads the words.

ghost use Rattle.std.specs.Prelude.{◌≡◌, IfOk};
ghost use Rattle.clap.specs.Words.{app_of, with_rule};
ghost use Rattle.pt_words.specs.App.{bare_app, flag_rule, graph_rule, option_rule, words_app};

use clap::{Arg, ArgAction, Command};
use std::alloc::{AllocError, Global};

/// The clap command that reads the words after the first. It accepts each option and positional word any number of times;
/// how often they may occur is checked in one place, after parsing.
pub(crate) fn words_command<'a>(alloc: Global) -> Result<Command<'a>, AllocError>
    ensures app { IfOk result (λ c. app_of c ≡ words_app) }
{
    let command = with_option(alloc, bare_command(alloc), "workers")?;
    let command = with_option(alloc, command, "clock")?;
    let command = with_option(alloc, command, "claims")?;
    let command = with_flag(alloc, command, "log")?;
    with_graph(alloc, command)
}

/// The clap command without arguments, and without help and version.
fn bare_command<'a>(alloc: Global) -> Command<'a>
    ensures { app_of result ≡ bare_app }
{
    Command::new(alloc, "ptides")
        .no_binary_name(true)
        .disable_help_flag(true)
        .disable_version_flag(true)
        .disable_help_subcommand(true)
}

/// The clap command with one more option, which takes a value.
fn with_option<'a>(
    alloc: Global,
    command: Command<'a>,
    name: &'a str,
) -> Result<Command<'a>, AllocError>
    ensures { IfOk result (λ c. app_of c
        ≡ with_rule (app_of command.entry) (option_rule name.entry.now)) }
{
    command.arg(Arg::new(alloc, name).long(name).action(ArgAction::Append))
}

/// The clap command with one more option without a value: each occurrence counts as an empty value.
fn with_flag<'a>(
    alloc: Global,
    command: Command<'a>,
    name: &'a str,
) -> Result<Command<'a>, AllocError>
    ensures { IfOk result (λ c. app_of c
        ≡ with_rule (app_of command.entry) (flag_rule name.entry.now)) }
{
    let flag = Arg::new(alloc, name)
        .long(name)
        .action(ArgAction::Append)
        .num_args(0)
        .default_missing_value("");
    command.arg(flag)
}

/// The clap command with positional words.
fn with_graph<'a>(alloc: Global, command: Command<'a>) -> Result<Command<'a>, AllocError>
    ensures { IfOk result (λ c. app_of c ≡ with_rule (app_of command.entry) graph_rule) }
{
    command.arg(Arg::new(alloc, "graph").action(ArgAction::Append))
}
