ghost use Rattle.std.specs.Prelude.{◌≡◌, ◌⊎◌, pos, length, IfOk, IfErr};
ghost use Rattle.mission.specs.Faults.{OfMachine, OfState};
ghost use Rattle.mission.specs.Kinds.{width, form as misformed, Padded};
ghost use Rattle.mission.specs.Machines.{halfway, Centred};
ghost use Rattle.mission.specs.Words.{parts};
ghost use Rattle.mission.specs.declared.fault.Why.TheVariants.{NotNumbers};

use crate::fault::Why;
use crate::words;
use cart::Cart;
use drone::Drone;
use guard::Guard;
use guard::reading::Reading;
use machines::making::MakingRefusal;
use std::fmt;

// Which machine a command is about: how its states are written and shown.
#[derive(Clone, Copy, Debug, PartialEq, Eq)]
pub enum Kind {
    Cart,
    Drone,
}

impl Kind {
    // What is wrong with a state that is written with more numbers or fewer.
    pub fn form(self) -> Why
        ensures { result ≡ misformed self }
    {
        match self {
            Kind::Cart => Why::CartForm,
            Kind::Drone => Why::DroneForm,
        }
    }

    // The three numbers of a state as it is written: a cart's with two, and 0 for the third.
    pub fn numbers(self, word: &str) -> Result<(i32, i32, i32), Why>
        ensures width { IfOk result (λ _. length (parts word.now) ≡ width self) }
        ensures padded { IfOk result (Padded self) }
        ensures form { IfErr result (λ e. (e ≡ misformed self) ⊎ (e ≡ NotNumbers)) }
    {
        let form = self.form();
        match self {
            Kind::Cart => {
                let [x, v] = words::numbers::<2>(form, word)?;
                Ok((x, v, 0))
            }
            Kind::Drone => {
                let [x, y, z] = words::numbers::<3>(form, word)?;
                Ok((x, y, z))
            }
        }
    }

    // The machine's state of this word.
    pub fn state<G: Guard>(self, g: &G, word: &str) -> Result<G::State, Why>
        ensures padded { IfOk result (λ s. Padded self ((G.Guard.meaning g.now).numbers s)) }
        ensures fault { IfErr result (OfState (misformed self)) }
    {
        Ok(g.state(self.numbers(word)?)?)
    }
}

// A machine of a command, with the numbers of a state at rest in the middle of its hall.
#[derive(Clone, Copy)]
pub enum Machine {
    Cart(Cart, (i32, i32, i32)),
    Drone(Drone, (i32, i32, i32)),
}

// Halfway along x and y, on the ground.
fn middle(x: i32, y: i32) -> (i32, i32, i32)
    ensures { result ≡ halfway (x, y, pos 0) }
{
    (x / 2, y / 2, 0)
}

impl Machine {
    fn cart(length: i32) -> Result<Machine, MakingRefusal>
        ensures { IfOk result Centred }
    {
        Ok(Machine::Cart(Cart::new(length)?, middle(length, 0)))
    }

    fn drone(x: i32, y: i32, z: i32) -> Result<Machine, MakingRefusal>
        ensures { IfOk result Centred }
    {
        Ok(Machine::Drone(Drone::new(x, y, z)?, middle(x, y)))
    }

    // The machine of a word such as `cart:1000` or `drone:20,20,10`.
    pub fn read(word: &str) -> Result<Machine, Why>
        ensures centred { IfOk result Centred }
        ensures fault { IfErr result OfMachine }
    {
        match word.split_once(':') {
            Some(("cart", length)) => Ok(Machine::cart(words::number(length)?)?),
            Some(("drone", size)) => {
                let [x, y, z] = words::numbers::<3>(Why::HallForm, size)?;
                Ok(Machine::drone(x, y, z)?)
            }
            _ => Err(Why::NoMachine),
        }
    }
}

// A state by its numbers, in the machine's words.
#[derive(Clone, Copy)]
pub struct Shown {
    kind: Kind,
    numbers: (i32, i32, i32),
}

// No struct of kind and guard: a guard is asked of much and its kind is only shown here.
impl Shown {
    // The state of the reading.
    pub fn new<G: Guard>(kind: Kind, g: &G, r: Reading<G::State>) -> Shown
        ensures kind { result.kind ≡ kind }
        ensures numbers { result.numbers ≡ (G.Guard.meaning g.now).numbers r.state }
    {
        Shown {
            kind,
            numbers: g.numbers(r.state),
        }
    }
}

impl fmt::Display for Shown {
    fn fmt<W: fmt::Write>(&self, f: &mut fmt::Formatter<W>) -> fmt::Result {
        let (x, y, z) = self.numbers;
        match self.kind {
            Kind::Cart => write!(f, "place {x}, speed {y}"),
            Kind::Drone => write!(f, "cell {x},{y},{z}"),
        }
    }
}
