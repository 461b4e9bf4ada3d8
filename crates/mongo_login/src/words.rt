//! The subcommands, by the words after the program's name.
ghost use Rattle.std.specs.Prelude.{◌≡◌, ◌↔◌, ℕ, [], ◌∷◌, map, string_bytes, decimal, IsTrue, MatchOption};
ghost use Rattle.mongo_login.specs.Words.{IsCountWord, NamesSubcommand, NamesNone};

use crate::job::Job;
use itoa::Buffer;
use mongo_settings::Task;

// The maximum of logins that one run makes.
const MAXIMUM_LOGINS: u32 = 1000;

/// What the program is asked to do.
#[derive(Clone, Copy, Debug, PartialEq, Eq)]
pub enum Subcommand {
    /// To read a text and do what it asks for.
    Read(Job),
    /// To make so many logins against a server of its own, 1 to 1000.
    Generate(u32),
}

/// What the words ask for: the name of a job alone, or `generate` and how many logins. None for other words.
pub fn subcommand_in(words: &[String]) -> Option<Subcommand>
    ensures { let texts = map string_bytes words.now in
        MatchOption result (NamesNone texts) (NamesSubcommand texts) }
{
    match words {
        [word] => subcommand_of_one(word.as_str()),
        [word, number] => subcommand_of_two(word.as_str(), number.as_str()),
        _ => None,
    }
}

// The subcommand of one word: the name of a job.
fn subcommand_of_one(word: &str) -> Option<Subcommand>
    ensures { MatchOption result (NamesNone (word.now ∷ [])) (NamesSubcommand (word.now ∷ [])) }
{
    match word {
        "rehearse" => Some(Subcommand::Read(Job::Login(Task::Rehearse))),
        "batch" => Some(Subcommand::Read(Job::Login(Task::Batch))),
        "proxy" => Some(Subcommand::Read(Job::Proxy)),
        _ => None,
    }
}

// The subcommand of two words: `generate` and how many logins.
fn subcommand_of_two(word: &str, number: &str) -> Option<Subcommand>
    ensures { MatchOption result (NamesNone (word.now ∷ number.now ∷ [])) (NamesSubcommand (word.now ∷ number.now ∷ [])) }
{
    if word != "generate" {
        return None;
    }
    match login_count(number) {
        Some(count) => Some(Subcommand::Generate(count)),
        None => None,
    }
}

// The number of logins that a word is.
fn login_count(word: &str) -> Option<u32>
    ensures { MatchOption result ((count : ℕ) → ¬ (IsCountWord word.now count)) (IsCountWord word.now) }
{
    match word.parse::<u32>() {
        Ok(count) => {
            if is_count(word, count) {
                Some(count)
            } else {
                None
            }
        }
        Err(_) => None,
    }
}

// Whether the word is this number, one that logins are made of.
fn is_count(word: &str, count: u32) -> bool
    ensures { IsTrue result ↔ IsCountWord word.now count }
{
    1 <= count && count <= MAXIMUM_LOGINS && is_spelled(word, count)
}

// Whether these are the number's decimal digits.
fn is_spelled(word: &str, count: u32) -> bool
    ensures { IsTrue result ↔ (word.now ≡ decimal count) }
{
    let mut digits = Buffer::new();
    digits.format(count) == word
}
