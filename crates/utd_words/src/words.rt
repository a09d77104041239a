// What the words ask for.
ghost use Rattle.std.specs.Prelude.{◌≡◌, List, [], ◌∷◌, ℕ, None, Some, IfOk, map, string_bytes, codes};
ghost use Rattle.clap.specs.Words.{found_of, one_text};
ghost use Rattle.clap.specs.Values.{IsUnsignedIn};
ghost use Rattle.utd_gen.specs.Script.{most_tuples};
ghost use Rattle.utd_words.specs.Words.{IsInRange, generate, dump, number_in, is_true, asked_by, asked};

use crate::command::utd_command;
use clap::ArgMatches;
use clap::error::ErrorKind;
use point_core::Memory;
use std::alloc::Global;

/// Which script is to run.
#[derive(Clone, Copy, Debug, PartialEq, Eq)]
pub enum Script {
    /// The one that the input has.
    OfInput,
    /// The generated one of this number.
    Generated(u16),
}

/// What is to be written.
#[derive(Clone, Copy, Debug, PartialEq, Eq)]
pub enum Asked {
    /// The answers to the statements of the script.
    Answers(Script),
    /// The dump of the database that the script leaves.
    Dump(Script),
}

/// The script that the matches ask for.
fn script_in(matches: &ArgMatches) -> Script
    ensures none { one_text (found_of matches.now) generate ≡ None → result ≡ Script.OfInput }
    ensures some { (text : List ℕ) → one_text (found_of matches.now) generate ≡ Some text
        → IsUnsignedIn 1 most_tuples text → result ≡ Script.Generated (number_in text) }
{
    match matches.get_one::<u16>("generate") {
        Some(number) => Script::Generated(number),
        None => Script::OfInput,
    }
}

/// Whether the matches ask for a dump.
fn is_dump(matches: &ArgMatches) -> bool
    ensures { result ≡ is_true (one_text (found_of matches.now) dump) }
{
    matches.get_one::<bool>("dump").unwrap_or(false)
}

/// What a script and the flag ask for.
fn asked_by(is_dump: bool, script: Script) -> Asked
    ensures { result ≡ asked_by is_dump script }
{
    if is_dump {
        Asked::Dump(script)
    } else {
        Asked::Answers(script)
    }
}

/// What the words ask for, or `None` where `clap` refuses them.
#[tactic(auto, using(crate::proofs::WordsLemmas::asked_by_none, crate::proofs::WordsLemmas::asked_by_dump))]
pub fn read_words(alloc: Global, words: &[String]) -> Result<Option<Asked>, Memory>
    ensures asked { IfOk result (λ what. what ≡ asked (map string_bytes words.now)) }
    ensures range { IfOk result IsInRange }

    // No word asks for the answers to the script of the input, and the flag for its dump.
    ensures no_words { asked [] ≡ Some (Asked.Answers Script.OfInput) }
    ensures flag_alone { asked (codes "--dump" ∷ []) ≡ Some (Asked.Dump Script.OfInput) }
{
    let command = utd_command(alloc)?;
    match command.try_get_matches_from(words) {
        Ok(matches) => Ok(Some(asked_by(is_dump(&matches), script_in(&matches)))),
        Err(error) => {
            if error.kind() == ErrorKind::OutOfMemory {
                Err(Memory)
            } else {
                Ok(None)
            }
        }
    }
}
