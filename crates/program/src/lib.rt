// What programs share: a file, named by an argument or open already, read into a buffer; an argument; and what is said, written.
#![tactic(auto)]

ghost use Rattle.std.specs.Prelude.{◌≤◌, length, IfOk, IfSome, MatchResult};

use std::alloc::Global;
use std::env::{Env, FillError};
use std::io::Read;
use std::rt::Files;
use std::{fs, io, str};

// What a buffer got: how many bytes, and whether there are more behind them.
#[derive(Clone, Copy)]
pub struct Whole {
    pub bytes: usize,
    pub more: bool,
}

// A read that failed: how many bytes came before it, and why.
#[derive(Drop)]
struct Broken {
    bytes: usize,
    error: io::Error,
}

impl From<Broken> for io::Error {
    fn from(broken: Broken) -> io::Error {
        let Broken { bytes: _, error } = broken;
        error
    }
}

// Fills a buffer from a reader, which may give it in pieces, until it is full or the input ends.
fn read_input<R: Read>(buffer: &mut [u8], reader: &mut R) -> Result<usize, Broken>
    ensures inside { MatchResult result (λ n. n ≤ length buffer.new) (λ e. e.bytes ≤ length buffer.new) }
{
    let mut bytes = 0;
    // no `for`: how far a turn leads the reader says
    while bytes < buffer.len() {
        match reader.read(&mut buffer[bytes..]) {
            Ok(0) => break,
            Ok(n) => bytes += n,
            Err(error) => return Err(Broken { bytes, error }),
        }
    }
    Ok(bytes)
}

// All that a reader gives, as far as the buffer goes.
pub fn read_whole<R: Read>(buffer: &mut [u8], reader: &mut R) -> io::Result<Whole>
    ensures inside { IfOk result (λ w. w.bytes ≤ length buffer.new) }
{
    let bytes = read_input(buffer, reader)?;
    let full = bytes == buffer.len();
    let more = full && 0 < read_input(&mut [0u8; 1], reader)?;
    Ok(Whole { bytes, more })
}

// How many bytes a reader puts into a buffer: as many as it has, or until it is full or a read fails.
pub fn fill<R: Read>(buffer: &mut [u8], reader: &mut R) -> usize
    ensures inside { result ≤ length buffer.new }
{
    read_input(buffer, reader).unwrap_or_else(|broken| broken.bytes)
}

// How many arguments there are, the program's name among them.
pub fn arg_count(rt: &impl Env) -> usize {
    let mut argument = [0u8; 1];
    for i in 0..usize::MAX {
        if let Err(FillError::NotPresent) = rt.arg(i, &mut argument) {
            return i;
        }
    }
    usize::MAX
}

// Puts argument i into a buffer: how many bytes it has, 0 where it is missing or longer than the buffer.
fn argument(buffer: &mut [u8], rt: &impl Env, i: usize) -> usize
    ensures inside { result ≤ length buffer.new }
{
    rt.arg(i, buffer).unwrap_or(0)
}

// A line on standard error: what failed, and why, in the system's word without its number.
fn fail(alloc: Global, errors: &impl Print, what: &[u8], error: &io::Error) {
    complain(errors, what);
    complain(errors, b": ");
    if let Ok(text) = format!(in alloc; "{error}") {
        let text = text.as_str();
        let reason = text
            .split_once(" (os error ")
            .map_or(text, |(reason, _)| reason);
        complain(errors, reason.as_bytes());
    }
    complain(errors, b"\n");
}

// The whole of the file that argument i names, and how many bytes it has; none where it cannot be read or is longer than the buffer, and
// then a line on standard error says so.
pub fn read_file<R: Env + Files + AllocGlobal>(
    buffer: &mut [u8],
    rt: &R,
    errors: &impl Print,
    i: usize,
    too_long: &[u8],
) -> Option<usize>
    ensures inside { IfSome result (λ n. n ≤ length buffer.new) }
{
    let mut name = [0u8; 4096];
    let n = argument(&mut name, rt, i);
    let name = &name[..n];
    let Ok(path) = str::from_utf8(name) else {
        complain(errors, name);
        complain(errors, b": its name is no text\n");
        return None;
    };
    match fs::open(rt, path).and_then(|mut file| read_whole(buffer, &mut file)) {
        Ok(Whole { bytes, more: false }) => Some(bytes),
        Ok(_) => {
            complain(errors, too_long);
            None
        }
        Err(error) => {
            fail(rt.alloc(), errors, name, &error);
            None
        }
    }
}

// Whether argument i is a word.
pub fn is_word(rt: &impl Env, i: usize, word: &[u8]) -> bool {
    let mut name = [0u8; 4096];
    let n = argument(&mut name, rt, i);
    &name[..n] == word
}

// A text written; where it cannot be there is nobody to tell.
pub fn put(output: &impl Print, text: &[u8]) {
    let _ = output.write_all(text);
}

// A number written in decimal.
pub fn put_number(output: &impl Print, n: u64) {
    let _ = output.print(n);
}

// A line on standard error.
pub fn complain(errors: &impl Print, text: &[u8]) {
    put(errors, text);
}

// Writes an answer to standard output.
pub fn say(output: &impl Print, errors: &impl Print, text: &[u8]) {
    if output.write_all(text).is_err() {
        complain(errors, b"standard output cannot be written\n");
    }
}
