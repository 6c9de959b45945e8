use crate::fault::Fault;
use executive::replay::replay;
use guard::Guard;
use guard::reading::Reading;
use guard::refusal::{Refusal, StateRefusal};
use history::calls::{Answer, Call, Ticket};
use std::{fmt, io};

// Whether a line's call reaches the executive, or why no state has its numbers. The calls stand in a list of their own, each once.
type Reach = Result<(), StateRefusal>;

// Why a line is not a call that reaches the executive.
#[derive(Clone, Copy, Debug, PartialEq, Eq)]
enum Unasked {
    NotCall,
    NoState(StateRefusal),
}

impl From<StateRefusal> for Unasked {
    fn from(x: StateRefusal) -> Unasked {
        Unasked::NoState(x)
    }
}

// The numbers that follow a call's name, just as many as are asked for. The same as `words::numbers` but for separator, type and
// errors: a function of both would take all three.
fn numbers<const N: usize>(words: &str) -> Result<[i64; N], Unasked> {
    let mut words = words.split_whitespace();
    let mut n = [0; N];
    for x in &mut n {
        let word = words.next().ok_or(Unasked::NotCall)?;
        *x = word.parse::<i64>().map_err(|_| Unasked::NotCall)?;
    }
    match words.next() {
        Some(_) => Err(Unasked::NotCall),
        None => Ok(n),
    }
}

// A number of a narrower type.
fn narrow<T: TryFrom<i64>>(x: i64) -> Result<T, Unasked>
where
    T::Error: Drop,
{
    T::try_from(x).map_err(|_| Unasked::NotCall)
}

fn reading<G: Guard>(g: &G, words: &str) -> Result<Reading<G::State>, Unasked> {
    let [x, y, z, charge] = numbers::<4>(words)?;
    let charge = narrow::<u16>(charge)?;
    let n = (narrow::<i32>(x)?, narrow::<i32>(y)?, narrow::<i32>(z)?);
    let state = g.state(n)?;
    Ok(Reading { state, charge })
}

fn ticket(words: &str) -> Result<Ticket, Unasked> {
    let [mission, tick, action, reason] = numbers::<4>(words)?;
    Ok(Ticket {
        mission: narrow::<u32>(mission)?,
        tick: narrow::<u32>(tick)?,
        action: narrow::<u8>(action)?,
        reason: narrow::<u8>(reason)?,
    })
}

// A call by its name and what follows it.
fn asked<G: Guard>(g: &G, name: &str, words: &str) -> Result<Call<G::State>, Unasked> {
    match name {
        "begin" => Ok(Call::Begin(reading(g, words)?)),
        "observe" => Ok(Call::Observe(reading(g, words)?)),
        "decide" => {
            let [proposal] = numbers::<1>(words)?;
            Ok(Call::Decide(narrow::<u8>(proposal)?))
        }
        "spend" => Ok(Call::Spend(ticket(words)?)),
        "close" => {
            let [] = numbers::<0>(words)?;
            Ok(Call::Close)
        }
        _ => Err(Unasked::NotCall),
    }
}

// An answer in words.
#[derive(Clone, Copy)]
struct Told(Answer);

impl fmt::Display for Told {
    fn fmt<W: fmt::Write>(&self, f: &mut fmt::Formatter<W>) -> fmt::Result {
        match self.0 {
            Answer::Accepted => write!(f, "ok"),
            Answer::Granted(t) => {
                let (mission, tick, action, reason) = (t.mission, t.tick, t.action, t.reason);
                write!(f, "ok {mission} {tick} {action} {reason}")
            }
            Answer::Spent(a) => write!(f, "ok {a}"),
            Answer::Ended(t) => {
                let (tick, given, spent) = (t.tick, t.given, t.spent);
                let (gains, losses) = (t.gains, t.losses);
                write!(f, "ok {tick} {given} {spent} {gains} {losses}")
            }
            Answer::Refused(x) => {
                let number = x.number();
                write!(f, "no {number}")
            }
        }
    }
}

// Prints an answer for each line of the script: that of the executive, or the refusal where no state has the line's numbers.
fn tell(rt: &HostRuntime, lines: &[Reach], answers: &[Answer]) -> io::Result<()> {
    let mut answers = answers.iter();
    for line in lines {
        match line {
            Err(refusal) => println!(rt; "no {}", refusal.number())?,
            Ok(()) => {
                if let Some(answer) = answers.next() {
                    println!(rt; "{}", Told(*answer))?;
                }
            }
        }
    }
    Ok(())
}

// A line without its comment and the blanks around it, as the call's name and what follows it.
fn cut(line: &str) -> (&str, &str) {
    let (code, _) = line.split_once('#').unwrap_or((line, ""));
    let code = code.trim();
    code.split_once(' ').unwrap_or((code, ""))
}

// Makes the calls of a script, one a line, and prints their answers.
pub fn run<'a, G: Guard + Drop>(
    rt: &HostRuntime,
    g: G,
    mission: u32,
    text: &str,
) -> Result<(), Fault<'a>> {
    let mut calls = Vec::new(rt.alloc());
    let mut lines = Vec::new(rt.alloc());
    for (i, line) in text.lines().enumerate() {
        let (name, words) = cut(line);
        if name.is_empty() {
            continue;
        }
        match asked(&g, name, words) {
            Ok(call) => {
                calls.push(call)?;
                lines.push(Ok(()))?;
            }
            Err(Unasked::NoState(refusal)) => lines.push(Err(refusal))?,
            Err(Unasked::NotCall) => return Err(Fault::Line(i)),
        }
    }
    let answers = replay(rt.alloc(), g, mission, calls.as_slice())?;
    tell(rt, lines.as_slice(), answers.as_slice())?;
    Ok(())
}
