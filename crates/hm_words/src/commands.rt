//! The two commands, as `clap` reads them.
ghost use Rattle.std.specs.Prelude.{◌≡◌, [], false, IfOk};
ghost use Rattle.clap.specs.Words.{app_of, rule_of};
ghost use Rattle.hm_words.specs.Commands.{generate_command, number_option, option_of, plain_command};
ghost use Rattle.hm_words.specs.Commands.{replay_command, required_words, versions};

use clap::{Arg, Command, value_parser};
use std::alloc::{AllocError, Global};

/// The words that follow `replay`: four options and one or more files.
pub(crate) fn replay_command<'a>(alloc: Global) -> Result<Command<'a>, AllocError>
    ensures { IfOk result (λ command. app_of command ≡ replay_command) }
{
    plain_command(alloc, "replay")
        .arg(versions_option(alloc))?
        .arg(order_option(alloc, "max-quantity"))?
        .arg(order_option(alloc, "low"))?
        .arg(order_option(alloc, "high"))?
        .arg(required_words(alloc, "FILE"))
}

/// The words that follow `generate`: two numbers and one option.
pub(crate) fn generate_command<'a>(alloc: Global) -> Result<Command<'a>, AllocError>
    ensures { IfOk result (λ command. app_of command ≡ generate_command) }
{
    let number = Arg::new(alloc, "NUMBER")
        .required(true)
        .value_parser(value_parser!(u64));
    let count = Arg::new(alloc, "COUNT")
        .required(true)
        .value_parser(value_parser!(u64).range(..=1_000_000));
    plain_command(alloc, "generate")
        .arg(number)?
        .arg(count)?
        .arg(versions_option(alloc))
}

/// A command that reads all its words, and has no help and no version.
fn plain_command<'a>(alloc: Global, name: &'a str) -> Command<'a>
    ensures { app_of result ≡ plain_command name.entry.now [] }
{
    Command::new(alloc, name)
        .no_binary_name(true)
        .disable_help_flag(true)
        .disable_version_flag(true)
}

/// The option that both commands have.
fn versions_option<'a>(alloc: Global) -> Arg<'a>
    ensures rule { rule_of result ≡ option_of versions }
    ensures local { result.global ≡ false }
{
    Arg::new(alloc, "versions")
        .long("versions")
        .value_parser(value_parser!(u64).range(64..=65536))
}

/// An option with a number that an order may have.
fn order_option<'a>(alloc: Global, name: &'a str) -> Arg<'a>
    ensures rule { rule_of result ≡ number_option name.entry.now 1 4294967295 }
    ensures local { result.global ≡ false }
{
    Arg::new(alloc, name)
        .long(name)
        .value_parser(value_parser!(u64).range(1..=4_294_967_295))
}

/// Words of which there has to be one, and may be any number.
fn required_words<'a>(alloc: Global, name: &'a str) -> Arg<'a>
    ensures rule { rule_of result ≡ required_words name.entry.now }
    ensures local { result.global ≡ false }
{
    Arg::new(alloc, name).required(true).num_args(1..)
}
