// The words of the command line.
ghost use Rattle.std.specs.Prelude.{◌≡◌, ◌↔◌, IsTrue, MatchResult, codes, take};

use crate::faults::Fault;
use format::answers::Edition;

// What a word asks for: an option; a file, as `-` is, standard input; or that all words after it are files' names.
#[derive(Clone, Copy, PartialEq, Eq, Debug)]
pub enum Word {
    Rows,
    Slots,
    Hex,
    House,
    Color,
    Help,
    At,
    Name,
    Edition,
    End,
    File,
}

impl TryFrom<&[u8]> for Word {
    ghost use Rattle.options.specs.Words.{Spells};

    type Error = Fault;

    ghost try_from_gives = { λ word result. MatchResult result (λ asked. Spells asked word.now) (λ _. take 1 word.now ≡ codes "-") };

    // What a word asks for.
    fn try_from(word: &[u8]) -> Result<Word, Fault> {
        match word {
            b"--rows" => Ok(Word::Rows),
            b"--slots" => Ok(Word::Slots),
            b"--hex" => Ok(Word::Hex),
            b"--house" => Ok(Word::House),
            b"--color" => Ok(Word::Color),
            b"--help" | b"-h" => Ok(Word::Help),
            b"--at" => Ok(Word::At),
            b"--name" => Ok(Word::Name),
            b"--edition" => Ok(Word::Edition),
            b"--" => Ok(Word::End),
            b"-" => Ok(Word::File),
            [b'-', ..] => Err(Fault::Unknown),
            _ => Ok(Word::File),
        }
    }
}

// Whether a word is standard input's.
pub fn is_input(word: &[u8]) -> bool
    ensures { IsTrue result ↔ (word.now ≡ codes "-") }
{
    matches!(word, b"-")
}

// The edition that a word names.
pub fn edition(word: &[u8]) -> Result<Edition, Fault>
    ensures old { (result ≡ Ok Edition.Old) ↔ (word.now ≡ codes "old") }
    ensures new { (result ≡ Ok Edition.New) ↔ (word.now ≡ codes "new") }
{
    match word {
        b"old" => Ok(Edition::Old),
        b"new" => Ok(Edition::New),
        _ => Err(Fault::OtherEdition),
    }
}
