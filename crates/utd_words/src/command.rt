// The command `utd`.
ghost use Rattle.std.specs.Prelude.{◌≡◌, false, IfOk};
ghost use Rattle.clap.specs.Words.{app_of, rule_of};
ghost use Rattle.utd_words.specs.Words.{generate_option, dump_flag, bare_command, utd_command};

use clap::builder::ValueParser;
use clap::{Arg, ArgAction, Command};
use std::alloc::{AllocError, Global};
use utd_gen::MOST_TUPLES;

/// The option `--generate` with a number from 1 to the most tuples of a generated script.
fn generate_option<'a>(alloc: Global) -> Arg<'a>
    ensures rule { rule_of result ≡ generate_option }
    ensures local { result.global ≡ false }
{
    Arg::new(alloc, "generate")
        .long("generate")
        .action(ArgAction::Set)
        .value_parser(ValueParser::unsigned(1, u64::from(MOST_TUPLES)))
}

/// The flag `--dump`.
fn dump_flag<'a>(alloc: Global) -> Arg<'a>
    ensures rule { rule_of result ≡ dump_flag }
    ensures local { result.global ≡ false }
{
    Arg::new(alloc, "dump")
        .long("dump")
        .action(ArgAction::SetTrue)
}

/// The command without its option and its flag.
fn bare_command<'a>(alloc: Global) -> Command<'a>
    ensures { app_of result ≡ bare_command }
{
    Command::new(alloc, "utd")
        .disable_help_flag(true)
        .disable_version_flag(true)
        .no_binary_name(true)
}

/// The command.
pub(crate) fn utd_command<'a>(alloc: Global) -> Result<Command<'a>, AllocError>
    ensures { IfOk result (λ c. app_of c ≡ utd_command) }
{
    let with_option = bare_command(alloc).arg(generate_option(alloc))?;
    let command = with_option.arg(dump_flag(alloc))?;
    Ok(command)
}
