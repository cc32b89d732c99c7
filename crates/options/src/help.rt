// What is said about the program itself.
use crate::arguments::word;
use crate::faults::{Fault, Wrong};
use show::quoted::plain;
use std::rt::Env;
use wording::block::Block;

// How to call the program.
const USAGE: &[u8] =
    b"usage: inspect [--rows] [--slots] [--hex] [--at ROW[,LEAF] I[,J..]] [--name A/B/C]
               [--edition old|new] [--color] [FILE..]
       inspect --house [--edition old|new] [FILE]
       inspect --help
";

// All else that there is to say.
const HELP: &[u8] =
    b"Shows BJData messages of up to 1,048,576 bytes, from files or from standard input; of a message
with more than 131,072 rows the first of these.

  --rows    the rows as a table, indented by nesting (what is shown where nothing else is asked for)
  --slots   the slots of each packed array and table, in storage order: first byte, width,
            address, value
  --hex     all bytes, each with the token or the slot that it belongs to
  --at ROW[,LEAF] I[,J..]
            one slot: the row of a packed array, or of a table and of a leaf of its schema; then
            up to 8 indexes, from 0. A table's row alone: all slots of that record
  --name A/B/C
            the row that names lead to, from the outermost object or table on; a name that has
            a `/` in it can't be reached
  --house   writes the message in house form, and nothing else, to standard output
  --edition old|new
            the edition that messages are read by; new where none is named. The old one has no
            extensions
  --color   with colour
  --help    this text; -h too
  --        all after it are files

A file `-` is standard input. Bytes, rows and indexes are counted from 0; hex digits are used for
bytes alone. The exit status is always 0.

  inspect --name alert samples/floor-rows.bjd
  inspect --at 0,5 17 samples/floor-rows.bjd
";

// All that there is to say.
pub fn all(out: &mut Block) {
    out.text(USAGE);
    out.text(HELP);
}

// Says on standard error which argument is bad, and why; and how to call the program, where an option is not known.
pub fn bad(rt: &impl Env, out: &mut Block, wrong: Wrong) {
    let fault = wrong.fault;
    write!(out, "inspect: {fault}");
    if fault.names_argument() {
        plain(out, word(rt, wrong.place, &mut [0; 4096]));
    }
    out.line();
    if fault == Fault::Unknown {
        out.text(USAGE);
    }
    out.complain();
}
