ghost use Rattle.std.specs.Prelude.{◌≡◌};
ghost use Rattle.runs.specs.Asking.{reading_of, noted as noting};

use guard::Guard;
use guard::reading::Reading;
use guard::refusal::StateRefusal;
use records::record::Noted;

// A reading by the numbers of its state. No `From`, since the guard names states.
pub(crate) fn noted<G: Guard>(g: &G, r: Reading<G::State>) -> Noted
    ensures { result ≡ noting (G.Guard.meaning g.now) r }
{
    Reading {
        state: g.numbers(r.state),
        charge: r.charge,
    }
}

// The reading that has these numbers. No `TryFrom`, since the guard names states.
pub(crate) fn reading<G: Guard>(g: &G, n: Noted) -> Result<Reading<G::State>, StateRefusal>
    ensures { result ≡ reading_of (G.Guard.meaning g.now) n }
{
    let state = g.state(n.state)?;
    Ok(Reading {
        state,
        charge: n.charge,
    })
}
