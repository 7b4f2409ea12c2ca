// The words, read by `clap`.
ghost use Rattle.std.specs.Prelude.{◌≡◌, ◌≤◌, true, false, IfOk, IfSome, codes, map, option_map};
ghost use Rattle.std.specs.Option.{option_map_or};
ghost use Rattle.std.specs.Str.{bytes_eq};
ghost use Rattle.std.specs.String.{string_bytes};
ghost use Rattle.clap.specs.Words.{IsUnsignedIn, first_of, first_value, found_of, kind_of, rows_of};
ghost use Rattle.command_words.specs.Given.{number_in};
ghost use Rattle.command_words.specs.Accepted.{accepted, mode_of_rows, IsInRange};

use crate::arguments::command;
use crate::modes::{Mode, Options, mode_for};
use clap::error::ErrorKind;
use clap::{ArgMatches, Error};
use plan_memory::Memory;
use std::alloc::Global;

/// The mode that the words after the program's name ask for: None exactly where the command line does not take them, or
/// an option stands with another mode than its own. Without `--workers` there is one worker.
pub fn mode_of(alloc: Global, words: &[String]) -> Result<Option<Mode>, Memory>
    ensures mode { IfOk result (λ mode. mode ≡ accepted (map string_bytes words.now)) }
    ensures in_range { IfOk result (λ mode. IfSome mode IsInRange) }
{
    let command = command(alloc)?;
    match command.try_get_matches_from(words) {
        Ok(matches) => Ok(mode_of_matches(&matches)),
        Err(error) if is_memory(&error) => Err(Memory),
        Err(_) => Ok(None),
    }
}

// The mode that the matches ask for.
fn mode_of_matches(matches: &ArgMatches) -> Option<Mode>
    requires workers { IfSome (first_value (found_of matches.now) (codes "workers")) (IsUnsignedIn 1 16) }
    requires number { IfSome (first_value (found_of matches.now) (codes "number")) (IsUnsignedIn 1 1000000) }
    ensures mode { result ≡ mode_of_rows (rows_of (found_of matches.now)) }
    ensures in_range { IfSome result IsInRange }
{
    let options = Options {
        workers: number_of(matches.get_str("workers")),
        draw: is_true(matches.get_str("draw")),
        number: number_of(matches.get_str("number")),
    };
    match matches.get_str("mode") {
        Some(word) => mode_for(word, options),
        None => None,
    }
}

// The number in the text of an option, where there is one.
fn number_of(text: Option<&str>) -> Option<u32>
    requires { IfSome text (λ s. IsUnsignedIn 1 1000000 s.now) }
    ensures { result ≡ option_map number_in (option_map (λ s. s.now) text.entry) }
{
    match text {
        Some(text) => Some(number_in_text(text)),
        None => None,
    }
}

// The number in a text: digits, before which a sign + may stand.
fn number_in_text(text: &str) -> u32
    requires { IsUnsignedIn 1 1000000 text.now }
    ensures { result ≡ number_in text.now }
{
    match text.parse::<u32>() {
        Ok(number) => number,
        Err(_) => unreachable!(),
    }
}

// Whether the text of a flag says that it was given.
fn is_true(text: Option<&str>) -> bool
    ensures { result ≡ option_map_or (λ t. bytes_eq t (codes "true")) (option_map (λ s. s.now) text.entry) false }
{
    match text {
        Some(text) => text == "true",
        None => false,
    }
}

// Whether memory was refused.
fn is_memory(error: &Error) -> bool
    ensures { kind_of error.now ≡ ErrorKind.OutOfMemory → result ≡ true }
{
    matches!(error.kind(), ErrorKind::OutOfMemory)
}
