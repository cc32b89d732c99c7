// The files that the command line names.
ghost use Rattle.std.specs.Prelude.{◌≤◌, length};

use crate::messages;
use options::arguments::{Asked, count, word};
use options::help;
use options::words::is_input;
use show::quoted::plain;
use std::fs::File;
use std::io;
use std::io::Read;
use wording::block::Block;

// The system's number for the error of bytes that are no text.
const NO_TEXT: i32 = 84;

// The system, the memory for a message's rows and its house form, and where output goes.
#[derive(Drop)]
pub struct Program<'a> {
    pub rt: &'a HostRuntime,
    pub rows: &'a mut [u32],
    pub house: &'a mut [u8],
    pub out: Block<'a>,
}

// Reads until the room is full, the input ends or a read fails; answers what was read, unless a read failed.
fn read<'r>(from: &mut impl Read, room: &'r mut [u8]) -> io::Result<&'r [u8]> {
    let mut count = 0;
    // No `for`: a read gives as many bytes as it will.
    while count < room.len() {
        match from.read(&mut room[count..])? {
            0 => break,
            got => count += got,
        }
    }
    Ok(&room[..count])
}

// The file of a name, which must be text.
fn open(rt: &HostRuntime, name: &[u8]) -> io::Result<File> {
    match str::from_utf8(name) {
        Ok(path) => File::open(rt, path),
        Err(_) => Err(io::Error::from_raw_os_error(NO_TEXT)),
    }
}

impl<'a> Program<'a> {
    // Says why the file of this name can't be read.
    fn fail(&mut self, name: &[u8], why: io::Error) {
        plain(&mut self.out, name);
        self.out.fail(why);
    }

    // A message under a name: in house form, or shown.
    fn named(&mut self, name: &[u8], message: &[u8], asked: &Asked) {
        let out = &mut self.out;
        let rows = &mut *self.rows;
        if asked.house {
            let house = &mut *self.house;
            messages::rewritten(name, message, rows, house, asked, out);
            return;
        }
        plain(out, name);
        messages::shown(self.rt, message, rows, asked, out);
        out.flush();
    }

    // The message that a reader has, under a name, read into its room.
    fn message_of(&mut self, name: &[u8], from: &mut impl Read, room: &mut [u8], asked: &Asked) {
        match read(from, room) {
            Ok(message) => self.named(name, message, asked),
            Err(why) => self.fail(name, why),
        }
    }

    // Standard input.
    fn input(&mut self, room: &mut [u8], asked: &Asked) {
        let mut input = self.rt.stdin();
        self.message_of(b"standard input", &mut input, room, asked);
    }

    // The file of a name.
    fn file(&mut self, name: &[u8], room: &mut [u8], asked: &Asked) {
        if is_input(name) {
            self.input(room, asked);
            return;
        }
        match open(self.rt, name) {
            Ok(mut file) => self.message_of(name, &mut file, room, asked),
            Err(why) => self.fail(name, why),
        }
    }

    // Each file of so many arguments.
    fn each(&mut self, count: usize, room: &mut [u8], asked: &Asked) {
        let mut so_far = Asked::default();
        for i in 1..count {
            if let Ok(true) = so_far.take(self.rt, i, count) {
                self.file(word(self.rt, i, &mut [0; 4096]), room, asked);
            }
        }
    }

    // Each file, or standard input where none is named; or help, or what is wrong with an argument. A message is read into its room.
    pub fn run(&mut self, room: &mut [u8]) {
        let count = count(self.rt);
        match Asked::read(self.rt, count) {
            Err(wrong) => help::bad(self.rt, &mut self.out, wrong),
            Ok(asked) if asked.help => {
                help::all(&mut self.out);
                self.out.flush();
            }
            Ok(asked) if asked.files == 0 => self.input(room, &asked),
            Ok(asked) => self.each(count, room, &asked),
        }
    }
}
