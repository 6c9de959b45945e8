ghost use Rattle.std.specs.Prelude.{◌≡◌, ◌<◌, true, false, ◌&&◌, Decides};
ghost use Rattle.guard.specs.Driven.{lowest as drawn};
ghost use Rattle.guard.specs.Meaning.{Follows, Numbers};
ghost use Rattle.guard.specs.Decision.{TellsEach, TellsSome, FirstDanger, Admits, Endangers, Calm};
ghost use Rattle.guard.specs.Decision.{admissible as admitted, calm as calmed, same_numbers, state_follows, charge_follows, follows as followed};

use crate::Guard;
use crate::fallback::lowest;
use crate::reading::Reading;

// Guard, reading and action are no struct: each action is asked of at the same reading, so one would be made anew for each question.

// The first gust under which the reading that follows, with the lowest charge, is not recoverable.
pub fn endangering_gust<G: Guard>(g: &G, r: Reading<G::State>, a: u8) -> Option<u8>
    ensures { FirstDanger (G.Guard.meaning g.now) r a result }
{
    // over the numbers of the gusts, written out as the rule is read
    for w in 0..g.gust_count() {
        if !g.recoverable(lowest(g, r, a, w)) {
            return Some(w);
        }
    }
    None
}

fn no_gust_endangers<G: Guard>(g: &G, r: Reading<G::State>, a: u8) -> bool
    ensures { TellsEach result (G.Guard.meaning g.now).gusts (λ w. (G.Guard.meaning g.now).recoverable (drawn (G.Guard.meaning g.now) r a w)) }
{
    endangering_gust(g, r, a).is_none()
}

// Whether the action keeps the machine recoverable, whatever the gust and the draw.
pub fn admissible<G: Guard>(g: &G, r: Reading<G::State>, a: u8) -> bool
    ensures value { result ≡ admitted (G.Guard.meaning g.now) r a }
    ensures means { Decides result (Admits (G.Guard.meaning g.now) r a) }
    ensures danger { result ≡ false → a < (G.Guard.meaning g.now).actions → Endangers (G.Guard.meaning g.now) r a }
{
    a < g.action_count() && no_gust_endangers(g, r, a)
}

fn each_action_admissible<G: Guard>(g: &G, r: Reading<G::State>) -> bool
    ensures { TellsEach result (G.Guard.meaning g.now).actions (λ a. admitted (G.Guard.meaning g.now) r a) }
{
    // over the numbers of the actions, written out as the rule is read
    for a in 0..g.action_count() {
        if !admissible(g, r, a) {
            return false;
        }
    }
    true
}

// Whether every action is admissible. This says nothing of whether the reading itself is safe.
pub fn calm<G: Guard>(g: &G, r: Reading<G::State>) -> bool
    ensures value { result ≡ calmed (G.Guard.meaning g.now) r }
    ensures means { Decides result (Calm (G.Guard.meaning g.now) r) }
{
    each_action_admissible(g, r)
}

// Whether the gust leads to the state of these numbers.
fn leads<G: Guard>(g: &G, s: G::State, a: u8, w: u8, n: (i32, i32, i32)) -> bool
    ensures { result ≡ same_numbers ((G.Guard.meaning g.now).numbers ((G.Guard.meaning g.now).after s a w)) n }
{
    g.numbers(g.after(s, a, w)) == n
}

// Whether some gust leads to the state of these numbers.
fn some_gust_leads<G: Guard>(g: &G, s: G::State, a: u8, n: (i32, i32, i32)) -> bool
    ensures { TellsSome result (G.Guard.meaning g.now).gusts (λ w. same_numbers ((G.Guard.meaning g.now).numbers ((G.Guard.meaning g.now).after s a w)) n) }
{
    for w in 0..g.gust_count() {
        if leads(g, s, a, w, n) {
            return true;
        }
    }
    false
}

// Whether the state t can follow the state s under the action.
pub fn state_can_follow<G: Guard>(g: &G, s: G::State, a: u8, t: G::State) -> bool
    ensures { result ≡ state_follows (G.Guard.meaning g.now) s a t }
{
    a < g.action_count() && some_gust_leads(g, s, a, g.numbers(t))
}

// Whether the charge can follow the reading under the action.
pub fn charge_can_follow<G: Guard>(g: &G, r: Reading<G::State>, a: u8, charge: u16) -> bool
    ensures { result ≡ charge_follows (G.Guard.meaning g.now) r a charge }
{
    r.charge.saturating_sub(g.draw(r.state, a)) <= charge && charge <= r.charge
}

fn state_and_charge_can_follow<G: Guard>(
    g: &G,
    r: Reading<G::State>,
    a: u8,
    t: Reading<G::State>,
) -> bool
    ensures { result ≡ followed (G.Guard.meaning g.now) r a t }
{
    state_can_follow(g, r.state, a, t.state) && charge_can_follow(g, r, a, t.charge)
}

// Whether the reading t can follow the reading r under the action.
pub fn can_follow<G: Guard>(g: &G, r: Reading<G::State>, a: u8, t: Reading<G::State>) -> bool
    ensures value { result ≡ followed (G.Guard.meaning g.now) r a t }
    ensures means { Decides result (Follows (G.Guard.meaning g.now) r a t) }
{
    state_and_charge_can_follow(g, r, a, t)
}
