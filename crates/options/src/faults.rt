// What is wrong with the command line.
ghost use Rattle.std.specs.Prelude.{◌≡◌};

use std::fmt;
use std::fmt::{Display, Formatter, Write};

// What is wrong with an argument.
#[derive(Clone, Copy, PartialEq, Eq, Debug)]
pub enum Fault {
    // An option that there is not.
    Unknown,
    // Longer than the program's room.
    Long,
    // An option that is taken once.
    Twice,
    // No path of names after its option.
    NoPath,
    // A word of an address that is not there, is no list, has too many numbers or a number with too many digits.
    NoList,
    OtherList,
    ManyNumbers,
    LongNumber,
    // House form of several files, or with a view.
    HouseFiles,
    HouseViews,
    // No edition after its option, or a word that is none.
    NoEdition,
    OtherEdition,
}

impl Fault {
    // This at an argument's place.
    pub fn at(self, place: usize) -> Wrong
        ensures place { result.place ≡ place }
        ensures fault { result.fault ≡ self }
    {
        Wrong { place, fault: self }
    }

    // Whether the argument is said after it.
    pub fn names_argument(self) -> bool {
        match self {
            Fault::Unknown | Fault::Twice => true,
            Fault::OtherList | Fault::ManyNumbers | Fault::LongNumber => true,
            Fault::OtherEdition => true,
            Fault::Long | Fault::NoPath | Fault::NoList | Fault::NoEdition => false,
            Fault::HouseFiles | Fault::HouseViews => false,
        }
    }

    // How an address or an edition is written, where that is what is wrong.
    fn form(self) -> &'static str {
        match self {
            Fault::NoList | Fault::OtherList | Fault::ManyNumbers | Fault::LongNumber => {
                "--at takes ROW[,LEAF] and then I[,J..], such as --at 0,5 17; "
            }
            Fault::NoEdition | Fault::OtherEdition => "--edition takes old or new; ",
            _ => "",
        }
    }

    // What is wrong.
    fn text(self) -> &'static str {
        match self {
            Fault::Unknown | Fault::OtherList | Fault::OtherEdition => "not understood: ",
            Fault::Long => "an argument is longer than 4,096 bytes",
            Fault::Twice => "given twice: ",
            Fault::NoPath => "--name needs a path, such as --name alert",
            Fault::NoList | Fault::NoEdition => "a word is missing",
            Fault::ManyNumbers => "too many numbers: ",
            Fault::LongNumber => "a number has more than 18 digits: ",
            Fault::HouseFiles => "--house takes one file",
            Fault::HouseViews =>
                "--house goes with none of --rows, --slots, --hex, --at and --name",
        }
    }
}

impl Display for Fault {
    // How it is written, where that helps, and what is wrong.
    fn fmt<W: Write>(&self, f: &mut Formatter<W>) -> fmt::Result {
        write!(f, "{}{}", self.form(), self.text())
    }
}

// The first argument that is bad, by its place, and what is wrong with it.
#[derive(Clone, Copy, PartialEq, Eq, Debug)]
pub struct Wrong {
    pub place: usize,
    pub fault: Fault,
}
