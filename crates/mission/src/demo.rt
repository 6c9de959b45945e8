use crate::fault::Fault;
use crate::machine::{Kind, Shown};
use executive::held::Executive;
use guard::Guard;
use guard::fallback::lowest;
use guard::reading::Reading;
use guard::reason::Reason;

// A proposal of the planner and a gust for each tick: good actions, bad ones, and bytes that are no action.
const PLAN: [(u8, u8); 24] = [
    (6, 2),
    (6, 1),
    (6, 2),
    (6, 2),
    (6, 1),
    (6, 2),
    (6, 2),
    (6, 1),
    (6, 2),
    (3, 0),
    (200, 1),
    (6, 2),
    (7, 0),
    (6, 1),
    (5, 2),
    (0, 0),
    (0, 1),
    (1, 2),
    (255, 0),
    (2, 1),
    (3, 2),
    (8, 1),
    (0, 0),
    (4, 1),
];

// The reason of a grant, by its number, as the grant has it, in words that are shorter than those of records.
fn why(reason: u8) -> &'static str {
    match Reason::try_from(reason) {
        Ok(Reason::NoAction) => "no action was proposed, control goes to the keeper",
        Ok(Reason::NotAdmissible) => {
            "the proposal is not admissible, control goes to the keeper"
        }
        Ok(Reason::Calm) => "the reading is calm, control goes to the planner",
        Ok(Reason::Stays) | Err(_) => "control stays",
    }
}

// Flies a scripted mission, with the most charge drawn in each tick, and prints a line for each tick. Kind and guard stand apart, as
// at `Shown`.
pub fn demo<'a, G: Guard + Copy>(
    rt: &HostRuntime,
    kind: Kind,
    g: &G,
    start: Reading<G::State>,
) -> Result<(), Fault<'a>> {
    let mut e = Executive::new(*g, 1);
    let mut r = start;
    e.begin(r)?;
    for (b, w) in PLAN {
        let control = e.control();
        let t = e.act(b)?;
        r = lowest(g, r, t.action, w);
        e.observe(r)?;
        let (tick, action, because) = (t.tick, t.action, why(t.reason));
        let at = Shown::new(kind, g, r);
        let charge = r.charge;
        println!(rt;
            "tick {tick}: {control}, proposed {b}, granted {action}, {because}; then {at}, charge {charge}"
        )?;
    }
    let n = e.close()?;
    let (tick, given, spent) = (n.tick, n.given, n.spent);
    let (gains, losses) = (n.gains, n.losses);
    println!(rt;
        "closed after {tick} ticks: given {given}, spent {spent}, gains {gains}, losses {losses}"
    )?;
    Ok(())
}
