use crate::given::reading;
use cart::Cart;
use cart::state::CartState;
use executive::replay::replay;
use guard::refusal::Refusal;
use history::calls::{Answer, Call, Ticket};
use std::test::Fail;

// A call: a begin and an observe with place, speed and charge, a decide with its byte, a spend with the grant's four numbers.
#[derive(Clone, Copy)]
enum Asked {
    Begin(i32, i32, u16),
    Decide(u8),
    Spend(u32, u32, u8, u8),
    Observe(i32, i32, u16),
    Close,
}

// An answer by its numbers: those of a grant, the action, the tick and the counts, the refusal's.
#[derive(Clone, Copy, Debug, PartialEq, Eq)]
enum Due {
    Accepted,
    Granted(u32, u32, u8, u8),
    Spent(u8),
    Ended(u32, u32, u32, u32, u32),
    Refused(u8),
}

// The answers come from a model of the rules that shares no code with the library.
const SCRIPT: [(Asked, Due); 47] = [
    (Asked::Decide(3), Due::Refused(6)),
    (Asked::Begin(911, 20, 9), Due::Refused(7)),
    (Asked::Close, Due::Refused(6)),
    (Asked::Begin(955, 0, 300), Due::Accepted),
    (Asked::Decide(6), Due::Granted(77, 0, 6, 3)),
    (Asked::Spend(77, 0, 6, 3), Due::Spent(6)),
    (Asked::Observe(958, 3, 297), Due::Accepted),
    (Asked::Decide(6), Due::Granted(77, 1, 6, 0)),
    (Asked::Spend(77, 1, 6, 0), Due::Spent(6)),
    (Asked::Observe(965, 7, 297), Due::Accepted),
    (Asked::Decide(5), Due::Granted(77, 2, 5, 0)),
    (Asked::Spend(77, 2, 5, 0), Due::Spent(5)),
    (Asked::Observe(975, 9, 297), Due::Refused(9)),
    (Asked::Observe(974, 9, 293), Due::Refused(10)),
    (Asked::Observe(974, 9, 297), Due::Accepted),
    (Asked::Decide(6), Due::Granted(77, 3, 7, 2)),
    (Asked::Spend(77, 3, 7, 2), Due::Spent(7)),
    (Asked::Observe(980, 6, 297), Due::Accepted),
    (Asked::Decide(0), Due::Granted(77, 4, 7, 0)),
    (Asked::Spend(77, 4, 7, 0), Due::Spent(7)),
    (Asked::Observe(983, 3, 297), Due::Accepted),
    (Asked::Decide(7), Due::Granted(77, 5, 7, 3)),
    (Asked::Spend(77, 5, 8, 3), Due::Refused(8)),
    (Asked::Spend(77, 5, 7, 3), Due::Spent(7)),
    (Asked::Observe(983, 0, 296), Due::Accepted),
    (Asked::Decide(255), Due::Granted(77, 6, 7, 1)),
    (Asked::Spend(77, 6, 7, 1), Due::Spent(7)),
    (Asked::Observe(983, 0, 296), Due::Accepted),
    (Asked::Decide(6), Due::Granted(77, 7, 6, 3)),
    (Asked::Spend(77, 7, 6, 3), Due::Spent(6)),
    (Asked::Observe(987, 4, 291), Due::Refused(10)),
    (Asked::Observe(987, 4, 292), Due::Accepted),
    (Asked::Decide(6), Due::Granted(77, 8, 7, 2)),
    (Asked::Spend(77, 8, 7, 2), Due::Spent(7)),
    (Asked::Observe(987, 0, 290), Due::Refused(10)),
    (Asked::Observe(987, 0, 292), Due::Accepted),
    (Asked::Decide(3), Due::Granted(77, 9, 3, 3)),
    (Asked::Spend(77, 9, 3, 3), Due::Spent(3)),
    (Asked::Observe(987, 0, 291), Due::Accepted),
    (Asked::Decide(6), Due::Granted(77, 10, 6, 0)),
    (Asked::Spend(77, 10, 6, 0), Due::Spent(6)),
    (Asked::Observe(991, 4, 287), Due::Accepted),
    (Asked::Decide(7), Due::Granted(77, 11, 7, 0)),
    (Asked::Spend(77, 11, 7, 0), Due::Spent(7)),
    (Asked::Close, Due::Ended(11, 12, 12, 4, 3)),
    (Asked::Close, Due::Refused(6)),
    (Asked::Begin(955, 0, 300), Due::Refused(6)),
];

fn call(cart: &Cart, asked: Asked) -> Result<Call<CartState>, Fail> {
    match asked {
        Asked::Begin(x, v, charge) => Ok(Call::Begin(reading(cart, (x, v, 0), charge)?)),
        Asked::Decide(b) => Ok(Call::Decide(b)),
        Asked::Spend(mission, tick, action, reason) => Ok(Call::Spend(Ticket {
            mission,
            tick,
            action,
            reason,
        })),
        Asked::Observe(x, v, charge) => Ok(Call::Observe(reading(cart, (x, v, 0), charge)?)),
        Asked::Close => Ok(Call::Close),
    }
}

impl From<Answer> for Due {
    fn from(answer: Answer) -> Due {
        match answer {
            Answer::Accepted => Due::Accepted,
            Answer::Granted(t) => Due::Granted(t.mission, t.tick, t.action, t.reason),
            Answer::Spent(a) => Due::Spent(a),
            Answer::Ended(t) => Due::Ended(t.tick, t.given, t.spent, t.gains, t.losses),
            Answer::Refused(x) => Due::Refused(x.number()),
        }
    }
}

#[test]
fn a_mission_by_the_model(rt: HostRuntime) -> Result<(), Fail> {
    let cart = Cart::new(1000)?;
    let mut calls = Vec::new(rt.alloc());
    for (asked, _) in SCRIPT {
        calls.push(call(&cart, asked)?)?;
    }
    let answers = replay(rt.alloc(), cart, 77, calls.as_slice())?;
    assert_eq!(rt; answers.len(), SCRIPT.len());
    for (answer, (_, due)) in answers.iter().zip(SCRIPT) {
        assert_eq!(rt; Due::from(*answer), due);
    }
    Ok(())
}
