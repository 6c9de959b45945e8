use crate::machine::{Kind, Shown};
use guard::reading::Reading;
use guard::{Guard, rule};
use std::io;

// Prints which actions are admissible at the reading, a gust that rules out each other one, and whether it is calm.
// Kind and guard stand apart, as at `Shown`.
pub fn judge<G: Guard>(
    rt: &HostRuntime,
    kind: Kind,
    g: &G,
    r: Reading<G::State>,
) -> io::Result<()> {
    let at = Shown::new(kind, g, r);
    let charge = r.charge;
    println!(rt; "{at}, charge {charge}")?;
    for a in 0..g.action_count() {
        match rule::endangering_gust(g, r, a) {
            None => println!(rt; "action {a}: admissible")?,
            Some(w) => println!(rt; "action {a}: not admissible, gust {w}")?,
        }
    }
    let verdict = if rule::calm(g, r) { "calm" } else { "not calm" };
    println!(rt; "{verdict}")
}
