//! The words of the command line.

ghost use Rattle.std.specs.Prelude.{◌≡◌, ℕ, ◌<◌, ◌^◌, [], ◌∷◌, Some, codes};
ghost use Rattle.std.specs.Fmt.{decimal};
ghost use Rattle.std.specs.List.{list_all};
ghost use Rattle.std.specs.Char.{is_ascii_digit};
ghost use Rattle.dwg_commands.specs.Commands.{reads};
ghost use Rattle.dwg_commands.specs.Words.{texts, is_numeral, number_of, make_of, drill_of, reading_of, command_of};

/// What the program is asked for.
#[derive(Clone, Copy, Debug, PartialEq, Eq)]
pub enum Command {
    /// The text of the file's locators.
    Sections,
    /// The text of the file's classes.
    Classes,
    /// The text of the drawing.
    Show,
    /// The canonical file of the drawing.
    Rewrite,
    /// What the references of the drawing fail.
    Audit,
    /// The canonical file of the drawing, or of all that is left of it.
    Recover,
    /// The items of the drawing's extended data, and what they refer to and isn't there.
    Appdata,
    /// The certificate of the drawing, where it is sound.
    Certify,
    /// Whether the certificate that the input begins with is one of the drawing after it.
    Accept,
    /// The canonical file of the drawing with the preview of the input.
    Carry,
    /// The canonical file of a made drawing.
    Make {
        /// How many entities follow its fixed objects.
        n: u32,
        /// The seed of its random numbers.
        seed: u32,
    },
    /// What is found out by a made drawing that is written, read again, audited, and read once more with a changed byte.
    Drill {
        /// How many entities follow its fixed objects.
        n: u32,
    },
}

/// Whether every byte is a decimal digit.
fn are_digits(word: &[u8]) -> bool
    ensures { result ≡ list_all is_ascii_digit word.now }
{
    word.iter().all(u8::is_ascii_digit)
}

/// Whether a word is one to ten decimal digits, without a zero before others.
#[tactic(auto, unfolding(crate::specs::Words::is_numeral))]
fn is_numeral(word: &[u8]) -> bool
    ensures { result ≡ is_numeral word.now }
{
    if word.is_empty() {
        return false;
    }
    if word.len() > 10 {
        return false;
    }
    if !are_digits(word) {
        return false;
    }
    if word[0] == b'0' {
        return word.len() == 1;
    }
    true
}

/// The number that a word spells. None exactly where it isn't one to ten decimal digits, has a zero before others, or is 2^32 or
/// more.
fn read_number(word: &str) -> Option<u32>
    ensures { result ≡ number_of word.now }
{
    if !is_numeral(word.as_bytes()) {
        return None;
    }
    word.parse().ok()
}

/// The command that makes a drawing.
fn read_make(n: &str, seed: &str) -> Option<Command>
    ensures { result ≡ make_of (number_of n.now) (number_of seed.now) }
{
    let n = read_number(n)?;
    let seed = read_number(seed)?;
    Some(Command::Make { n, seed })
}

/// The command that drills with a made drawing.
fn read_drill(n: &str) -> Option<Command>
    ensures { result ≡ drill_of (number_of n.now) }
{
    let n = read_number(n)?;
    Some(Command::Drill { n })
}

/// The command that reads of this word.
#[tactic(auto, unfolding(crate::specs::Words::reading_of, crate::specs::Commands::READERS, crate::specs::Commands::row_of))]
fn reading_named(word: &str) -> Option<Command>
    ensures { result ≡ reading_of word.now }
{
    match word {
        "sections" => Some(Command::Sections),
        "classes" => Some(Command::Classes),
        "show" => Some(Command::Show),
        "rewrite" => Some(Command::Rewrite),
        "audit" => Some(Command::Audit),
        "recover" => Some(Command::Recover),
        "appdata" => Some(Command::Appdata),
        "certify" => Some(Command::Certify),
        "accept" => Some(Command::Accept),
        "carry" => Some(Command::Carry),
        _ => None,
    }
}

/// Whether a command reads the input.
#[tactic(auto, unfolding(crate::specs::Commands::row_of))]
pub(crate) fn reads(command: Command) -> bool
    ensures { result ≡ reads command }
{
    match command {
        Command::Make { .. } => false,
        Command::Drill { .. } => false,
        _ => true,
    }
}

/// The command that the words name, by the table of commands.
#[tactic(auto, unfolding(crate::specs::Words::command_of, crate::specs::Commands::row_of))]
fn command_named(words: &[String]) -> Option<Command>
    ensures { result ≡ command_of (texts words.now) }
{
    match words {
        [word] => reading_named(word.as_str()),
        [word, n] => {
            if word.as_str() == "drill" {
                read_drill(n.as_str())
            } else {
                None
            }
        }
        [word, n, seed] => {
            if word.as_str() == "make" {
                read_make(n.as_str(), seed.as_str())
            } else {
                None
            }
        }
        _ => None,
    }
}

/// The command that the words name. None exactly where they stand in no line of the command table. The numbers of `make` and `drill`
/// are the decimal texts of those below 2^32. It takes no memory.
#[tactic(auto, using(crate::proofs::MakeWords::make_named, crate::proofs::MakeWords::make_numbers, crate::proofs::DrillWords::drill_named, crate::proofs::DrillWords::drill_number))]
pub fn read_words(words: &[String]) -> Option<Command>
    ensures named { result ≡ command_of (texts words.now) }
    ensures numbers { (n seed : ℕ) → result ≡ Some (Command.Make n seed) → texts words.now ≡ codes "make" ∷ decimal n ∷ decimal seed ∷ [] }
    ensures makes { (n seed : ℕ) → n < 2 ^ 32 → seed < 2 ^ 32 → texts words.now ≡ codes "make" ∷ decimal n ∷ decimal seed ∷ [] → result ≡ Some (Command.Make n seed) }
    ensures number { (n : ℕ) → result ≡ Some (Command.Drill n) → texts words.now ≡ codes "drill" ∷ decimal n ∷ [] }
    ensures drills { (n : ℕ) → n < 2 ^ 32 → texts words.now ≡ codes "drill" ∷ decimal n ∷ [] → result ≡ Some (Command.Drill n) }
{
    command_named(words)
}
