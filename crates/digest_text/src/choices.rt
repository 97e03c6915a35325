// Which hash to take.
ghost use Rattle.std.specs.Prelude.{codes, Some};
ghost use Rattle.digest_text.specs.Texts.{Chosen};

use std::error::Error;
use std::fmt;
use std::str::FromStr;

// That over SHACAL-1, over SHACAL-2, or over the practice cipher.
#[derive(Clone, Copy, Debug, PartialEq, Eq)]
pub enum Choice {
    Sha1,
    Sha256,
    Practice,
}

// An argument that names no hash.
#[derive(Clone, Copy, Debug, PartialEq, Eq)]
pub struct UnknownChoice;

impl FromStr for Choice {
    type Err = UnknownChoice;

    ghost from_str_gives = { Chosen };

    fn from_str(argument: &str) -> Result<Choice, UnknownChoice> {
        match argument {
            "1" => Ok(Choice::Sha1),
            "2" => Ok(Choice::Sha256),
            "P" => Ok(Choice::Practice),
            _ => Err(UnknownChoice),
        }
    }
}

impl fmt::Display for UnknownChoice {
    ghost output = { λ _. Some (codes "the argument is 1, 2 or P, or there is none") };

    fn fmt<W: fmt::Write>(&self, f: &mut fmt::Formatter<W>) -> fmt::Result {
        f.write_str("the argument is 1, 2 or P, or there is none")
    }
}

impl Error for UnknownChoice {}
