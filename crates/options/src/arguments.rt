// What the command line asks for.
//
//     Asked::read(rt, count)?          what all arguments ask for, or the first that is wrong
//     asked.take(rt, i, count)?        what argument i asks for, too: whether it is a file's
//     word(rt, i, &mut [0; 4096])      the word of argument i
ghost use Rattle.std.specs.Prelude.{◌≡◌, ◌≤◌, ◌↔◌, length, true, false, IsTrue, IsNone};

use crate::faults::{Fault, Wrong};
use crate::lists::List;
use crate::words;
use crate::words::Word;
use format::answers::Edition;
use std::env::FillError;
use std::rt::Env;

// The numbers of an address before its indexes, and the indexes.
const ROWS: usize = 2;

const INDEXES: usize = 8;

// An address: a row, the row of a leaf, if one is named, and the indexes.
#[derive(Clone, Copy, Debug)]
pub struct Address {
    pub row: usize,
    pub leaf: Option<usize>,
    pub indexes: List,
}

// The views, an address, the place of a path of names among the arguments, and the edition, as far as they are asked for.
#[derive(Clone, Copy, Default)]
pub struct Asked {
    pub rows: bool,
    pub slots: bool,
    pub hex: bool,
    pub house: bool,
    pub color: bool,
    pub help: bool,
    pub address: Option<Address>,
    pub name: Option<usize>,
    pub edition: Option<Edition>,
    // The files named so far.
    pub files: usize,
    // The words that are still taken by the option before.
    skip: usize,
    // Whether all that follows are files.
    ended: bool,
}

// How many arguments the program was started with, its own name among them.
pub fn count(rt: &impl Env) -> usize {
    for i in 0..usize::MAX {
        if let Err(FillError::NotPresent) = rt.arg(i, &mut []) {
            return i;
        }
    }
    usize::MAX
}

// The word of argument i, put into its room; empty where it is not there or too long.
pub fn word<'r>(rt: &impl Env, i: usize, room: &'r mut [u8; 4096]) -> &'r [u8]
    ensures { length result.now ≤ 4096 }
{
    match rt.arg(i, room) {
        Ok(n) => &room[..n],
        Err(_) => &[],
    }
}

// Whether argument i is too long for the program's room.
fn is_long(rt: &impl Env, i: usize) -> bool {
    let mut room = [0u8; 4096];
    matches!(rt.arg(i, &mut room), Err(FillError::TooLong))
}

// The list of at most so many numbers at argument i of so many.
fn list_at(rt: &impl Env, i: usize, count: usize, most: usize) -> Result<List, Wrong> {
    if count <= i {
        return Err(Fault::NoList.at(i));
    }
    List::parse(word(rt, i, &mut [0; 4096]), most).map_err(|fault| fault.at(i))
}

// The address at argument i of so many and the argument after it.
fn address_at(rt: &impl Env, i: usize, count: usize) -> Result<Address, Wrong> {
    let rows = list_at(rt, i, count, ROWS)?;
    let indexes = list_at(rt, i.saturating_add(1), count, INDEXES)?;
    let [row, leaf, ..] = rows.numbers;
    Ok(Address {
        row,
        leaf: if rows.count < 2 { None } else { Some(leaf) },
        indexes,
    })
}

// The edition that argument i of so many names.
fn edition_at(rt: &impl Env, i: usize, count: usize) -> Result<Edition, Wrong> {
    if count <= i {
        return Err(Fault::NoEdition.at(i));
    }
    words::edition(word(rt, i, &mut [0; 4096])).map_err(|fault| fault.at(i))
}

impl Asked {
    // What all of so many arguments ask for, where house form is taken of one file and with no view.
    pub fn read(rt: &impl Env, count: usize) -> Result<Asked, Wrong> {
        if let Some(place) = (1..count).find(|&i| is_long(rt, i)) {
            return Err(Fault::Long.at(place));
        }
        let mut asked = Asked::default();
        for i in 1..count {
            asked.take(rt, i, count)?;
        }
        if asked.house && 1 < asked.files {
            return Err(Fault::HouseFiles.at(1));
        }
        if asked.house && asked.has_view() {
            return Err(Fault::HouseViews.at(1));
        }
        Ok(asked)
    }

    // What argument i of so many asks for, beside what is asked for so far; answers whether it is a file's.
    pub fn take(&mut self, rt: &impl Env, i: usize, count: usize) -> Result<bool, Wrong>
        ensures file { result ≡ Ok true → self.old.files ≤ self.new.files }
        ensures option { result ≡ Ok false → self.new.files ≡ self.old.files }
    {
        if 0 < self.skip {
            self.skip -= 1;
            return Ok(false);
        }
        let word = if self.ended {
            Word::File
        } else {
            Word::try_from(word(rt, i, &mut [0; 4096])).map_err(|fault| fault.at(i))?
        };
        match word {
            Word::At => self.take_address(rt, i, count)?,
            Word::Name => self.take_name(i, count)?,
            Word::Edition => self.take_edition(rt, i, count)?,
            Word::File => self.files = self.files.saturating_add(1),
            _ => self.take_alone(word),
        }
        Ok(word == Word::File)
    }

    // An option that takes no word: a view, or that all words after it are files' names.
    fn take_alone(&mut self, word: Word)
        ensures { self.new.files ≡ self.old.files }
    {
        match word {
            Word::Rows => self.rows = true,
            Word::Slots => self.slots = true,
            Word::Hex => self.hex = true,
            Word::House => self.house = true,
            Word::Color => self.color = true,
            Word::Help => self.help = true,
            Word::End => self.ended = true,
            Word::At | Word::Name | Word::Edition | Word::File => {}
        }
    }

    // An address, at argument i of so many: two lists must follow.
    fn take_address(&mut self, rt: &impl Env, i: usize, count: usize) -> Result<(), Wrong>
        ensures { self.new.files ≡ self.old.files }
    {
        if self.address.is_some() {
            return Err(Fault::Twice.at(i));
        }
        self.address = Some(address_at(rt, i.saturating_add(1), count)?);
        self.skip = 2;
        Ok(())
    }

    // A path of names, at argument i of so many: a word must follow.
    fn take_name(&mut self, i: usize, count: usize) -> Result<(), Wrong>
        ensures { self.new.files ≡ self.old.files }
    {
        if self.name.is_some() {
            return Err(Fault::Twice.at(i));
        }
        let path = i.saturating_add(1);
        if count <= path {
            return Err(Fault::NoPath.at(i));
        }
        self.name = Some(path);
        self.skip = 1;
        Ok(())
    }

    // An edition, at argument i of so many: its name must follow.
    fn take_edition(&mut self, rt: &impl Env, i: usize, count: usize) -> Result<(), Wrong>
        ensures { self.new.files ≡ self.old.files }
    {
        if self.edition.is_some() {
            return Err(Fault::Twice.at(i));
        }
        self.edition = Some(edition_at(rt, i.saturating_add(1), count)?);
        self.skip = 1;
        Ok(())
    }

    // The edition that messages are read by: the new one where none is named.
    pub fn read_by(&self) -> Edition
        ensures { (result ≡ Edition.Old) ↔ (self.now.edition ≡ Some Edition.Old) }
    {
        self.edition.unwrap_or(Edition::New)
    }

    // Whether no view is asked for by name: then the rows are shown.
    pub fn is_plain(&self) -> bool
        ensures slots { IsTrue result → self.now.slots ≡ false }
        ensures hex { IsTrue result → self.now.hex ≡ false }
        ensures address { IsTrue result → IsNone self.now.address }
        ensures name { IsTrue result → IsNone self.now.name }
    {
        !self.slots && !self.hex && self.address.is_none() && self.name.is_none()
    }

    // Whether a view is asked for.
    fn has_view(&self) -> bool {
        self.rows || !self.is_plain()
    }
}
