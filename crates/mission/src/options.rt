ghost use Rattle.std.specs.Prelude.{◌≡◌, ◌≤◌, false, None, length, vec_len, IfOk, IfErr};
ghost use Rattle.mission.specs.Faults.{OfOption};
ghost use Rattle.mission.specs.declared.input.Form.TheVariants.{Binary};

use crate::fault::{Fault, Why};
use crate::input::Form;
use crate::task::Task;
use crate::words;
use std::alloc::Global;

// What is asked by options.
#[derive(Clone, Copy)]
pub struct Options<'a> {
    // the full charge where none is given
    pub charge: u16,
    // the gusts to brake under
    pub gusts: Option<&'a str>,
    // the mission's number
    pub mission: u32,
    // how many bytes the log of a run has
    pub log_size: Option<usize>,
    // the file that the log of a run goes to
    pub log: Option<&'a str>,
    // whether only the last line of a run is printed
    pub quiet: bool,
    // how the tape of a run is written
    pub form: Form,
}

impl<'a> Options<'a> {
    fn none() -> Options<'a>
        ensures charge { result.charge ≡ 65535 }
        ensures mission { result.mission ≡ 0 }
        ensures log_size { result.log_size ≡ None }
        ensures quiet { result.quiet ≡ false }
        ensures form { result.form ≡ Binary }
    {
        Options {
            charge: u16::MAX,
            gusts: None,
            mission: 0,
            log_size: None,
            log: None,
            quiet: false,
            form: Form::Binary,
        }
    }

    // With an option that has a value.
    fn with(self, option: &str, value: &'a str) -> Result<Options<'a>, Why>
        ensures { IfErr result OfOption }
    {
        match option {
            "--charge" => Ok(Options {
                charge: words::charge(value)?,
                ..self
            }),
            "--gusts" => Ok(Options {
                gusts: Some(value),
                ..self
            }),
            "--mission" => Ok(Options {
                mission: words::parsed::<u32>(value, Why::NotMission)?,
                ..self
            }),
            "--log-size" => Ok(Options {
                log_size: Some(words::parsed::<usize>(value, Why::NotSize)?),
                ..self
            }),
            // the empty word names no file
            "--log" => Ok(Options {
                log: Some(value).filter(|file| !file.is_empty()),
                ..self
            }),
            _ => Err(Why::NoOption),
        }
    }
}

// Where the options begin.
pub fn first(words: &[String]) -> usize
    ensures { result ≤ length words.now }
{
    words
        .iter()
        .position(|word| word.as_str().starts_with("--"))
        .unwrap_or(words.len())
}

// Takes the option of the task, with its value if it has one, and answers the words that are left after it.
fn take<'a, T: Task>(
    options: &mut Options<'a>,
    option: &'a str,
    after: &'a [String],
) -> Result<&'a [String], Fault<'a>>
    ensures { IfOk result (λ left. length left.now ≤ length after.now) }
{
    if !T::takes(option) {
        return Err(Fault::Word(Why::NoOption, option));
    }
    match (option, after) {
        ("--quiet", _) => {
            options.quiet = true;
            Ok(after)
        }
        ("--hex", _) => {
            options.form = Form::Hex;
            Ok(after)
        }
        (_, [value, left @ ..]) => {
            let value = value.as_str();
            *options = options
                .with(option, value)
                .map_err(|why| Fault::Word(why, value))?;
            Ok(left)
        }
        (_, []) => Err(Fault::Word(Why::NoValue, option)),
    }
}

// The options of the task among the words, and the words that are neither options nor their values.
pub fn read<'a, T: Task>(
    heap: Global,
    words: &'a [String],
) -> Result<(Options<'a>, Vec<&'a str>), Fault<'a>>
    ensures { IfOk result (λ r. vec_len r.1 ≤ length words.now) }
{
    let mut options = Options::none();
    let mut places = Vec::new(heap);
    let mut rest = words;
    while let [word, after @ ..] = rest {
        let word = word.as_str();
        if word.starts_with("--") {
            rest = take::<T>(&mut options, word, after)?;
        } else {
            places.push(word)?;
            rest = after;
        }
    }
    Ok((options, places))
}
