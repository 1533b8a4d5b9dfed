//! The words of the command line.

ghost use Rattle.std.specs.Prelude.{◌≡◌, map, IfSome, MatchOption, Some, None, string_bytes};
ghost use Rattle.topaz_run.specs.Words.{KeepsLimits, command_of, command_of_three as three_words, gen_of as gen_word, long_command_of};
ghost use Rattle.topaz_run.specs.Meant.{meant};

use crate::command::Command;
use crate::number::number;

/// How many turns may be asked for.
const MOST_TURNS: u64 = 1_000_000_000_000;

/// The largest number that makes a bundle.
const MOST_NUMBER: u64 = u64::MAX;

/// The command that the words ask for, if they are of a form.
pub fn command<'a>(words: &'a [String]) -> Option<Command<'a>>
    ensures meant { MatchOption result (command_of (map string_bytes words.now) ≡ None)
        (λ command. command_of (map string_bytes words.now) ≡ Some (meant command)) }
    ensures limits { IfSome result (λ command. KeepsLimits (meant command)) }
{
    match words {
        [verb, first, second] => {
            command_of_three(verb.as_str(), first.as_str(), second.as_str())
        }
        [verb, config, hw, name] if verb.as_str() == "guest" => Some(Command::Guest {
            config: config.as_str(),
            hw: hw.as_str(),
            name: name.as_str(),
        }),
        [verb, file] if verb.as_str() == "dtb" => Some(Command::Dtb {
            file: file.as_str(),
        }),
        _ => long_command(words),
    }
}

/// The command that three words ask for.
fn command_of_three<'a>(verb: &str, first: &'a str, second: &'a str) -> Option<Command<'a>>
    ensures meant { MatchOption result (three_words verb.now first.now second.now ≡ None)
        (λ command. three_words verb.now first.now second.now ≡ Some (meant command)) }
    ensures limits { IfSome result (λ command. KeepsLimits (meant command)) }
{
    if verb == "bare" {
        let turns = number(second, MOST_TURNS)?;
        Some(Command::Bare {
            image: first,
            turns,
        })
    } else if verb == "check" {
        Some(Command::Check {
            config: first,
            hw: second,
        })
    } else if verb == "gen" {
        gen_of(first, second)
    } else {
        None
    }
}

/// The command `gen`, if both words are numbers.
fn gen_of<'a>(text: &str, turns: &str) -> Option<Command<'a>>
    ensures meant { MatchOption result (gen_word text.now turns.now ≡ None)
        (λ command. gen_word text.now turns.now ≡ Some (meant command)) }
    ensures limits { IfSome result (λ command. KeepsLimits (meant command)) }
{
    let number = number(text, MOST_NUMBER)?;
    let turns = self::number(turns, MOST_TURNS)?;
    Some(Command::Gen { number, turns })
}

/// The command that five words ask for.
fn long_command<'a>(words: &'a [String]) -> Option<Command<'a>>
    ensures meant { MatchOption result (long_command_of (map string_bytes words.now) ≡ None)
        (λ command. long_command_of (map string_bytes words.now) ≡ Some (meant command)) }
    ensures limits { IfSome result (λ command. KeepsLimits (meant command)) }
{
    match words {
        [verb, config, hw, script, turns] if verb.as_str() == "run" => {
            let turns = number(turns.as_str(), MOST_TURNS)?;
            Some(Command::Run {
                config: config.as_str(),
                hw: hw.as_str(),
                script: script.as_str(),
                turns,
            })
        }
        _ => None,
    }
}
