//! What the programs share: the machine's words and streams.

use outside::Words;
use std::alloc::{AllocError, Global};
use std::fs::File;
use std::io::ErrorKind;
use std::process::ExitCode;
use std::{env, io};

// The exit statuses that come before a tool is called.
const WRONG_WORDS: u8 = 1;

const NO_MEMORY: u8 = 6;

// A file that is always there, and empty.
const NOTHING: &str = "/dev/null";

/// The words that the machine gives, and handles that hold the numbers of closed streams.
#[derive(Drop)]
pub struct Session {
    words: Words,
    held: [io::Result<File>; 3],
}

impl Session {
    /// Takes the words without the program's name. Three handles take the numbers of standard streams that are closed:
    /// else a file of the project would get such a number, and what is put on the stream would go into the file. These
    /// are for reading alone, so a put fails.
    ///
    /// # Errors
    /// The exit status: 1 where a word is no UTF-8 text, and 6 where memory ran out.
    pub fn open(rt: &HostRuntime) -> Result<Session, ExitCode> {
        let held = [
            File::open(rt, NOTHING),
            File::open(rt, NOTHING),
            File::open(rt, NOTHING),
        ];
        let args = match env::args(rt) {
            Ok(args) => args,
            Err(error) if error.kind() == ErrorKind::OutOfMemory => {
                return Err(ExitCode::from(NO_MEMORY));
            }
            Err(_) => return Err(ExitCode::from(WRONG_WORDS)),
        };
        match words_of(rt.alloc(), args) {
            Ok(words) => Ok(Session { words, held }),
            Err(_) => Err(ExitCode::from(NO_MEMORY)),
        }
    }

    /// The words.
    pub fn words(&self) -> &Words {
        let _ = &self.held;
        &self.words
    }
}

// The words of the command, without the program's name.
fn words_of(alloc: Global, words: env::Args) -> Result<Words, AllocError> {
    let mut list = Words::new(alloc);
    for word in words.skip(1) {
        list.push(word.as_str())?;
    }
    Ok(list)
}
