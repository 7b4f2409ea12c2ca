// The command line as a command of `clap`. It takes whatever `clap` takes: an option's value after a space or after `=`,
// the mode before or after the options, and a number with a sign + or with zeros in front, as `+4`, `04` and `007`.
ghost use Rattle.std.specs.Prelude.{◌≡◌, false, IfOk};
ghost use Rattle.clap.specs.Words.{app_of, rule_of};
ghost use Rattle.command_words.specs.Command.{mode_rule, workers_rule, draw_rule, number_rule, bare_command as bare_command_app, pallet_command};

use clap::builder::ValueParser;
use clap::{Arg, ArgAction, Command};
use std::alloc::{AllocError, Global};

// The mode. Its four names are compared after the parse, which refuses the same words as a list of values would here.
fn mode_argument<'a>(alloc: Global) -> Arg<'a>
    ensures rule { rule_of result ≡ mode_rule }
    ensures local { result.global ≡ false }
{
    Arg::new(alloc, "mode")
        .required(true)
        .action(ArgAction::Set)
}

fn workers_option<'a>(alloc: Global) -> Arg<'a>
    ensures rule { rule_of result ≡ workers_rule }
    ensures local { result.global ≡ false }
{
    Arg::new(alloc, "workers")
        .long("workers")
        .action(ArgAction::Set)
        .value_parser(ValueParser::Unsigned(1, 16))
}

fn draw_flag<'a>(alloc: Global) -> Arg<'a>
    ensures rule { rule_of result ≡ draw_rule }
    ensures local { result.global ≡ false }
{
    Arg::new(alloc, "draw")
        .long("draw")
        .action(ArgAction::SetTrue)
}

fn number_option<'a>(alloc: Global) -> Arg<'a>
    ensures rule { rule_of result ≡ number_rule }
    ensures local { result.global ≡ false }
{
    Arg::new(alloc, "number")
        .long("number")
        .action(ArgAction::Set)
        .value_parser(ValueParser::Unsigned(1, 1_000_000))
}

fn bare_command<'a>(alloc: Global) -> Command<'a>
    ensures { app_of result ≡ bare_command_app }
{
    Command::new(alloc, "pallet")
        .no_binary_name(true)
        .disable_help_flag(true)
        .disable_version_flag(true)
}

/// The command line with its mode and its three options.
pub fn command<'a>(alloc: Global) -> Result<Command<'a>, AllocError>
    ensures { IfOk result (λ c. app_of c ≡ pallet_command) }
{
    let mode = bare_command(alloc).arg(mode_argument(alloc))?;
    let workers = mode.arg(workers_option(alloc))?;
    let draw = workers.arg(draw_flag(alloc))?;
    draw.arg(number_option(alloc))
}
