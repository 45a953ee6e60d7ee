//! Reading the words.
ghost use Rattle.std.specs.Prelude.{◌≡◌, false, true, Some, None, Err, IfOk, IsSome, map};
ghost use Rattle.clap.specs.Words.{app_of, found_of, is_simple, is_simple_and_free, matches_of, one_of, rows_of};
ghost use Rattle.hm_words.specs.Commands.{Setting, least_of, most_of, name_of};
ghost use Rattle.hm_words.specs.Asked.{accepts, asked, asked_of_generate, asked_of_replay, files_of};
ghost use Rattle.hm_words.specs.Asked.{number_or, settings_of, texts, wish_of};
ghost use Rattle.hm_words.specs.Reading.{HasNumber, HasSetting, IsParsedBy, IsWithin};
ghost use Rattle.hm_words.specs.declared.asked.WordsRefused.TheVariants as refused;

use crate::asked::{Asked, Settings, WordsRefused};
use crate::commands::{generate_command, replay_command};
use clap::{ArgMatches, Command};
use hm_book::Limits;
use std::alloc::{AllocError, Global};

/// The versions of a caller where the words do not say.
const VERSIONS: u32 = 4096;

/// What the words behind the program's name ask for.
///
/// # Errors
///
/// [`WordsRefused::Refused`] where the first word is neither `replay` nor `generate`, where the command that it names
/// refuses the words after it, or where the least price is above the greatest; [`WordsRefused::Memory`] where memory
/// ran out.
pub fn read_words<'a>(alloc: Global, words: &'a [String]) -> Result<Asked<'a>, WordsRefused>
    ensures asked { IfOk result (λ answer. asked (texts words.now) ≡ Some (wish_of answer)) }
    ensures within { IfOk result (λ answer. IsWithin (wish_of answer)) }
    ensures refused { result ≡ Err refused.Refused → asked (texts words.now) ≡ None }
{
    match words {
        [command, rest @ ..] if command.as_str() == "replay" => read_replay(alloc, rest),
        [command, rest @ ..] if command.as_str() == "generate" => read_generate(alloc, rest),
        _ => Err(WordsRefused::Refused),
    }
}

/// What the words after `replay` ask for.
fn read_replay<'a>(alloc: Global, words: &'a [String]) -> Result<Asked<'a>, WordsRefused>
    ensures asked { IfOk result (λ answer. asked_of_replay (texts words.now) ≡ Some (wish_of answer)) }
    ensures within { IfOk result (λ answer. IsWithin (wish_of answer)) }
    ensures refused { result ≡ Err refused.Refused → asked_of_replay (texts words.now) ≡ None }
{
    let matches = parse(replay_command(alloc)?, words)?;
    let settings = settings_of(&matches);
    if settings.limits.high < settings.limits.low {
        return Err(WordsRefused::Refused);
    }
    let files = files_of(alloc, &matches)?;
    Ok(Asked::Replay { settings, files })
}

/// What the words after `generate` ask for.
fn read_generate<'a>(alloc: Global, words: &'a [String]) -> Result<Asked<'a>, WordsRefused>
    ensures asked { IfOk result (λ answer. asked_of_generate (texts words.now) ≡ Some (wish_of answer)) }
    ensures within { IfOk result (λ answer. IsWithin (wish_of answer)) }
    ensures refused { result ≡ Err refused.Refused → asked_of_generate (texts words.now) ≡ None }
{
    let matches = parse(generate_command(alloc)?, words)?;
    Ok(Asked::Generate {
        versions: number_or(&matches, "versions", VERSIONS),
        number: required_number(&matches, "NUMBER"),
        count: required_number(&matches, "COUNT"),
    })
}

/// What the command finds in the words.
fn parse<'a>(mut command: Command<'a>, words: &'a [String]) -> Result<ArgMatches<'a>, WordsRefused>
    requires simple { is_simple (app_of command) ≡ true }
    requires free { is_simple_and_free (app_of command) ≡ true }
    ensures accepted { IfOk result (λ _. accepts (app_of command.entry) (texts words.now) ≡ true) }
    ensures rows { IfOk result (λ matches. rows_of (found_of matches)
        ≡ matches_of (app_of command.entry) (texts words.now)) }
    ensures parsed { IfOk result (IsParsedBy (app_of command.entry)) }
    ensures refused { result ≡ Err refused.Refused
        → accepts (app_of command.entry) (texts words.now) ≡ false }
{
    Ok(command.try_get_matches_from_mut(words)?)
}

/// The settings that the matches of `replay` hold.
fn settings_of(matches: &ArgMatches<'_>) -> Settings
    requires { (setting : Setting) → HasSetting (rows_of (found_of matches.now)) setting }
    ensures { result ≡ settings_of (rows_of (found_of matches.now)) }
{
    let widest = Limits::NONE;
    let max_quantity = number_or(matches, "max-quantity", widest.max_quantity);
    let low = number_or(matches, "low", widest.low);
    let high = number_or(matches, "high", widest.high);
    Settings {
        versions: number_or(matches, "versions", VERSIONS),
        limits: Limits {
            max_quantity,
            low,
            high,
        },
    }
}

/// The files that the matches of `replay` hold.
fn files_of<'a>(alloc: Global, matches: &ArgMatches<'a>) -> Result<Vec<&'a str>, AllocError>
    ensures { IfOk result (λ files.
        map (λ name. name.now) files.items ≡ files_of (rows_of (found_of matches.now))) }
{
    let mut files = Vec::new(alloc);
    files.extend_from_slice(matches.get_strs("FILE").unwrap_or(&[]))?;
    Ok(files)
}

/// The number of this option, or where the words do not have it this one.
fn number_or(matches: &ArgMatches<'_>, name: &str, default: u32) -> u32
    requires { HasNumber name.now 0 4294967295 (rows_of (found_of matches.now)) }
    ensures { result ≡ number_or default name.now (rows_of (found_of matches.now)) }
{
    matches.get_one::<u32>(name).unwrap_or(default)
}

/// The number of this word, which has to be there.
fn required_number(matches: &ArgMatches<'_>, name: &str) -> u64
    requires there { IsSome (one_of name.now (rows_of (found_of matches.now))) }
    requires number { HasNumber name.now 0 18446744073709551615 (rows_of (found_of matches.now)) }
    ensures { result ≡ number_or 0 name.now (rows_of (found_of matches.now)) }
{
    matches.get_one::<u64>(name).unwrap()
}
