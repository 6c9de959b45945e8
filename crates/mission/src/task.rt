ghost use Rattle.std.specs.Prelude.{◌≡◌, ℕ, List};
ghost use Rattle.mission.specs.Options.{among, brake_options, judge_options, calls_options, run_options};

use crate::fault::{Fault, Why};
use crate::input::{Form, Source};
use crate::machine::Kind;
use crate::options::Options;
use crate::{brake, judge, running, script, words};
use guard::Guard;
use guard::reading::Reading;

// What a task is about, beside its guard: the machine's kind, the options, and the last word of the command.
#[derive(Clone, Copy)]
pub struct Job<'a> {
    pub kind: Kind,
    pub given: Options<'a>,
    pub word: &'a str,
}

impl<'a> Job<'a> {
    // The reading at the state that the word names, with the charge given.
    fn reading<G: Guard>(self, g: &G) -> Result<Reading<G::State>, Fault<'a>> {
        let state = self
            .kind
            .state(g, self.word)
            .map_err(|why| Fault::Word(why, self.word))?;
        Ok(Reading {
            state,
            charge: self.given.charge,
        })
    }
}

// What a command asks of a guard, whatever the machine and its layers.
pub trait Task {
    ghost options: { List (List ℕ) };

    // Whether the task has the option of this name.
    fn takes(option: &str) -> bool
        ensures { result ≡ among option.now options };

    fn carry_out<'a, G: Guard + Drop>(
        rt: &HostRuntime,
        g: G,
        job: Job<'a>,
    ) -> Result<(), Fault<'a>>;
}

// Drives the machine by its fallback from a state.
pub struct Brake;

// Judges the actions at a state.
pub struct Judge;

// Makes the calls of a script.
pub struct Calls;

// Runs a tape.
pub struct Run;

impl Task for Brake {
    ghost options = { brake_options };

    fn takes(option: &str) -> bool {
        matches!(option, "--charge" | "--gusts")
    }

    fn carry_out<'a, G: Guard + Drop>(
        rt: &HostRuntime,
        g: G,
        job: Job<'a>,
    ) -> Result<(), Fault<'a>> {
        let gusts = words::gusts(rt.alloc(), g.gust_count(), job.given.gusts.unwrap_or(""))?;
        let r = job.reading(&g)?;
        brake::brake(rt, job.kind, &g, r, gusts.as_slice())?;
        Ok(())
    }
}

impl Task for Judge {
    ghost options = { judge_options };

    fn takes(option: &str) -> bool {
        option == "--charge"
    }

    fn carry_out<'a, G: Guard + Drop>(
        rt: &HostRuntime,
        g: G,
        job: Job<'a>,
    ) -> Result<(), Fault<'a>> {
        let r = job.reading(&g)?;
        judge::judge(rt, job.kind, &g, r)?;
        Ok(())
    }
}

impl Task for Calls {
    ghost options = { calls_options };

    fn takes(option: &str) -> bool {
        option == "--mission"
    }

    fn carry_out<'a, G: Guard + Drop>(
        rt: &HostRuntime,
        g: G,
        job: Job<'a>,
    ) -> Result<(), Fault<'a>> {
        let (form, word) = (Form::Binary, job.word);
        let bytes = Source { form, word }
            .bytes(rt)
            .map_err(|_| Fault::Word(Why::NoFile, word))?;
        let text = String::from_utf8(bytes).map_err(|_| Fault::Word(Why::NoFile, word))?;
        script::run(rt, g, job.given.mission, text.as_str())
    }
}

impl Task for Run {
    ghost options = { run_options };

    fn takes(option: &str) -> bool {
        matches!(
            option,
            "--mission" | "--log-size" | "--log" | "--quiet" | "--hex"
        )
    }

    fn carry_out<'a, G: Guard + Drop>(
        rt: &HostRuntime,
        g: G,
        job: Job<'a>,
    ) -> Result<(), Fault<'a>> {
        running::run(rt, g, job.word, job.given)
    }
}
