// What the programs share: they read files and arguments, write their text, and mark that it is written.
#![tactic(auto)]

ghost use Rattle.std.specs.Prelude.{◌≡◌, true};
ghost use Rattle.std.specs.Io.KnownBytes.{Appends};
ghost use Rattle.std.specs.Counts.{IsPrefixLen};

use limits::Limits;
use std::fs::{File, OpenOptions};
use std::io::{Read, Write};
use std::rt::{Env, Files};

// Reads a file into the buffer as far as it holds it, and answers how many bytes it read: none where the file can not be opened.
pub fn read_file(files: &impl Files, path: &str, buffer: &mut [u8]) -> usize
    ensures { IsPrefixLen result buffer.new }
{
    match File::open(files, path) {
        Ok(mut file) => read_full(&mut file, buffer),
        Err(_) => 0,
    }
}

// Reads case.bin and start.bin, has their text written and answers its length. Each buffer holds a byte more than the longest sound file, so a
// longer file is refused for its length.
pub fn text_of_files<T, F: FnOnce(&[u8], &[u8], &mut T) -> usize>(
    files: &impl Files,
    text: &mut T,
    write: F,
) -> usize
    requires { F.IsAlwaysCallable write }
    ensures { (case : _) × (start : _) × (before : _) × (after : _) × F.post write case start before result after × (after.now ≡ text.new) }
{
    let mut case = [0u8; Limits::CASE_FILE + 1];
    let mut start = [0u8; Limits::START_FILE + 1];
    let c = read_file(files, "case.bin", &mut case);
    let s = read_file(files, "start.bin", &mut start);
    write(&case[..c], &start[..s], text)
}

// Reads until the buffer is full, the input ends or a read fails, and answers how many bytes it read.
fn read_full<R: Read>(from: &mut R, buffer: &mut [u8]) -> usize
    ensures { IsPrefixLen result buffer.new }
{
    let mut done = 0;
    // Kept (3): a read gives some number of bytes, and `read_exact` does not tell how many it read before the end of the input.
    while done < buffer.len() {
        match from.read(&mut buffer[done..]) {
            Ok(0) => break,
            Ok(n) => done += n,
            Err(_) => break,
        }
    }
    done
}

// Reads the argument of this number into the buffer, 1 being the first behind the program's name, and answers how many bytes it has: none
// where it is missing or longer than the buffer.
pub fn read_argument(env: &impl Env, number: usize, buffer: &mut [u8]) -> usize
    ensures { IsPrefixLen result buffer.new }
{
    match env.arg(number, buffer) {
        Ok(n) => n,
        Err(_) => 0,
    }
}

// Writes all of the text, and answers whether that has succeeded.
pub fn write_text<W: Write>(out: &mut W, text: &[u8]) -> bool
    ensures { result ≡ true → Appends (W.contents out.old) (W.contents out.new) text.now }
{
    out.write_all(text).is_ok() && out.flush().is_ok()
}

// Makes the file `written` in the working directory exactly if all was written: this file tells a program's caller that the text is whole.
pub fn mark_written(files: &impl Files, all: bool) {
    if !all {
        return;
    }
    let _ = OpenOptions::new()
        .write(true)
        .create_new(true)
        .open(files, "written");
}
