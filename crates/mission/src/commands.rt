use crate::fault::{Fault, Why};
use crate::layer::Layer;
use crate::machine::{Kind, Machine};
use crate::task::{Job, Task};
use crate::{demo, options};
use guard::Guard;
use guard::reading::Reading;
use layers::battery::Battery;
use std::marker::PhantomData;

// How many more layers may stand on a guard.
trait Room {
    // Carries the task out on the guard under these layers, the first of them lowest.
    fn stack<'a, T: Task, G: Guard + Drop>(
        rt: &HostRuntime,
        g: G,
        layers: &[&'a str],
        job: Job<'a>,
    ) -> Result<(), Fault<'a>>;
}

// None.
struct Full;

// One more than R.
struct Above<R>(PhantomData<R>);

impl Room for Full {
    fn stack<'a, T: Task, G: Guard + Drop>(
        rt: &HostRuntime,
        g: G,
        layers: &[&'a str],
        job: Job<'a>,
    ) -> Result<(), Fault<'a>> {
        match layers {
            [] => T::carry_out(rt, g, job),
            [word, ..] => Err(Fault::Word(Why::ManyLayers, word)),
        }
    }
}

impl<R: Room> Room for Above<R> {
    fn stack<'a, T: Task, G: Guard + Drop>(
        rt: &HostRuntime,
        g: G,
        layers: &[&'a str],
        job: Job<'a>,
    ) -> Result<(), Fault<'a>> {
        match layers {
            [] => T::carry_out(rt, g, job),
            [word, rest @ ..] => {
                match Layer::read(word).map_err(|why| Fault::Word(why, word))? {
                    Layer::Fence(draft) => R::stack::<T, _>(rt, draft.seal(g), rest, job),
                    Layer::Battery(reserve) => {
                        R::stack::<T, _>(rt, Battery::new(g, reserve), rest, job)
                    }
                }
            }
        }
    }
}

// At most three layers stand on a machine.
type Three = Above<Above<Above<Full>>>;

// `mission TASK MACHINE LAYER.. WORD`, with options anywhere; the last word is a state, a script or a tape.
pub fn run<'a, T: Task>(rt: &HostRuntime, words: &'a [String]) -> Result<(), Fault<'a>> {
    let (given, places) = options::read::<T>(rt.alloc(), words)?;
    let [machine, layers @ .., word] = places.as_slice() else {
        return Err(Fault::Usage);
    };
    let job = |kind| Job { kind, given, word };
    match Machine::read(machine).map_err(|why| Fault::Word(why, machine))? {
        Machine::Cart(cart, _) => Three::stack::<T, _>(rt, cart, layers, job(Kind::Cart)),
        Machine::Drone(drone, _) => Three::stack::<T, _>(rt, drone, layers, job(Kind::Drone)),
    }
}

// From the state of these numbers, with a charge of 1,000. Kind and guard stand apart, as at `Shown`.
fn show_from<'a, G: Guard + Copy>(
    rt: &HostRuntime,
    kind: Kind,
    g: &G,
    n: (i32, i32, i32),
    machine: &'a str,
) -> Result<(), Fault<'a>> {
    let state = g
        .state(n)
        .map_err(|refusal| Fault::Word(Why::NoState(refusal), machine))?;
    let charge = 1000;
    demo::demo(rt, kind, g, Reading { state, charge })
}

// `mission demo MACHINE`: from rest in the middle of the rail, or from the ground in the middle of the hall.
pub fn show<'a>(rt: &HostRuntime, words: &'a [String]) -> Result<(), Fault<'a>> {
    let [word] = words else {
        return Err(Fault::Usage);
    };
    let word = word.as_str();
    match Machine::read(word).map_err(|why| Fault::Word(why, word))? {
        Machine::Cart(cart, middle) => show_from(rt, Kind::Cart, &cart, middle, word),
        Machine::Drone(drone, middle) => show_from(rt, Kind::Drone, &drone, middle, word),
    }
}
