ghost use Rattle.std.specs.Prelude.{◌≡◌, length, IfOk};
ghost use Rattle.mission.specs.Sources.{word_count};

use crate::fault::{Fault, Why};
use std::io::Read;
use std::{fs, io};
use text::hex;
use text::hex::HexFault;

// How bytes are written: as they are, or as hexadecimal text.
#[derive(Clone, Copy, Debug, PartialEq, Eq)]
pub enum Form {
    Binary,
    Hex,
}

// Where bytes come from: a file, or standard input where the word is `-`.
#[derive(Clone, Copy)]
pub struct Source<'a> {
    pub form: Form,
    pub word: &'a str,
}

// The bytes as they are.
fn contents(rt: &HostRuntime, word: &str) -> io::Result<Vec<u8>> {
    if word != "-" {
        return fs::read(rt, word);
    }
    let mut bytes = Vec::new(rt.alloc());
    rt.stdin().read_to_end(&mut bytes)?;
    Ok(bytes)
}

// No `From`, since the fault names the word beside it.
fn no_hex<'a>(fault: HexFault, word: &'a str) -> Fault<'a> {
    match fault {
        HexFault::NotDigit(at) => Fault::Digit(at, word),
        HexFault::Odd => Fault::Word(Why::OddDigits, word),
        HexFault::Memory => Fault::Memory,
    }
}

impl<'a> Source<'a> {
    // The source of `COMMAND [--hex] FILE`. No `Task`, since these commands have no guard and this one option.
    pub fn named(words: &'a [String]) -> Result<Source<'a>, Fault<'a>>
        ensures { IfOk result (λ source. length words.now ≡ word_count source.form) }
    {
        match words {
            [word] => match word.as_str() {
                "--hex" => Err(Fault::Usage),
                word => Ok(Source {
                    form: Form::Binary,
                    word,
                }),
            },
            [option, word] => match (option.as_str(), word.as_str()) {
                ("--hex", word) | (word, "--hex") => Ok(Source {
                    form: Form::Hex,
                    word,
                }),
                (other, _) => Err(Fault::Word(Why::NoOption, other)),
            },
            _ => Err(Fault::Usage),
        }
    }

    // All its bytes.
    pub fn bytes(self, rt: &HostRuntime) -> Result<Vec<u8>, Fault<'a>> {
        let word = self.word;
        let bytes = contents(rt, word).map_err(|_| Fault::Word(Why::NoBytes, word))?;
        match self.form {
            Form::Binary => Ok(bytes),
            Form::Hex => {
                hex::bytes(rt.alloc(), bytes.as_slice()).map_err(|fault| no_hex(fault, word))
            }
        }
    }
}
