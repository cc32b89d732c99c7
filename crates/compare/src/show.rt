// What is written: where the readers differ, and the summary.
use crate::answers::Numbers;
use crate::message_runs::Message;
use crate::tally::{Pair, Tally};
use std::io;

// A line for each count, with its number; the first has the number given.
fn lines(rt: &impl Print, name: &str, counts: &[u64], first: u32) -> io::Result<()> {
    for (number, count) in (first..).zip(counts) {
        println!(rt; "{name} {number}: {count}")?;
    }
    Ok(())
}

// What is counted of the new edition's answers.
fn answers(rt: &impl Print, tally: &Tally) -> io::Result<()> {
    let messages = tally.messages;
    let accepted = tally.numbers[0];
    println!(rt; "messages: {messages}")?;
    println!(rt; "accepted: {accepted}")?;
    lines(rt, "refused with", &tally.numbers[1..10], 1)?;
    lines(rt, "refused with", &tally.numbers[13..14], 13)
}

// What is counted of the rows of the messages that the new edition accepts.
fn features(rt: &impl Print, tally: &Tally) -> io::Result<()> {
    let slowest = tally.slowest;
    let fastest = tally.fastest;
    let by_columns = tally.by_columns;
    lines(rt, "accepted, with a row of kind", &tally.kinds[1..], 1)?;
    println!(rt; "accepted, with dimensions, first index slowest: {slowest}")?;
    println!(rt; "accepted, with dimensions, first index fastest: {fastest}")?;
    println!(rt; "accepted, with a table by columns: {by_columns}")
}

// What is counted of the two editions.
fn editions(rt: &impl Print, tally: &Tally) -> io::Result<()> {
    let accepted = tally.old_accepted;
    let refused = tally.old_refused;
    let extension = tally.at_extension;
    let again = tally.new_accepted;
    println!(rt; "accepted by the old edition: {accepted}")?;
    println!(rt; "refused by the old edition: {refused}")?;
    println!(rt; "of these with 3 at an E: {extension}")?;
    println!(rt; "of these accepted by the new edition: {again}")
}

// The faults.
fn faults(rt: &impl Print, tally: &Tally) -> io::Result<()> {
    let new = tally.new;
    let old = tally.old;
    let editions = tally.editions;
    println!(rt; "different, the readers by the new edition: {new}")?;
    println!(rt; "different, the readers by the old edition: {old}")?;
    println!(rt; "different, the editions but at an E: {editions}")
}

// The summary.
pub fn summary(rt: &impl Print, tally: &Tally) -> io::Result<()> {
    let checksum = tally.checksum;
    answers(rt, tally)?;
    features(rt, tally)?;
    println!(rt; "checksum of answers and rows: {checksum}")?;
    editions(rt, tally)?;
    faults(rt, tally)
}

// A message for which two answers differ: what was compared, its number, the words lent, its bytes, both answers.
pub fn different(
    rt: &impl Print,
    message: Message<'_>,
    pair: Pair,
    words: usize,
    a: Numbers,
    b: Numbers,
) -> io::Result<()> {
    let number = message.number;
    print!(rt; "different, {pair}: message {number}, words {words}: {a} {b} ")?;
    for byte in message.bytes {
        print!(rt; "{byte:02x}")?;
    }
    println!(rt;)
}
