ghost use Rattle.std.specs.Prelude.{◌≡◌, ◌+◌, ◌≤◌, length};
ghost use Rattle.records.specs.Bytes.{bytes, body, reading_bytes};
ghost use Rattle.records.specs.Fitting.{Fitting};
ghost use Rattle.records.specs.Writing.{placed, Written};

use crate::record::{Noted, Record};
use crate::refusal::WriteRefusal;

fn put(slot: &mut [u8], at: usize, bytes: &[u8])
    requires { at + length bytes.now ≤ length slot.old }
    ensures { slot.new ≡ placed slot.old at bytes.now }
{
    let end = at + bytes.len();
    slot[at..end].copy_from_slice(bytes);
}

fn put_reading(slot: &mut [u8], r: Noted)
    requires { length slot.old ≡ 14 }
    ensures { slot.new ≡ reading_bytes r }
{
    put(slot, 0, &r.state.0.to_le_bytes());
    put(slot, 4, &r.state.1.to_le_bytes());
    put(slot, 8, &r.state.2.to_le_bytes());
    put(slot, 12, &r.charge.to_le_bytes());
}

fn put_body(slot: &mut [u8], r: Record)
    requires { length slot.old ≡ length (body r) }
    ensures { slot.new ≡ body r }
{
    match r {
        Record::Begin { reading } | Record::Observe { reading } => put_reading(slot, reading),
        Record::Decide { proposal } => put(slot, 0, &[proposal]),
        Record::Close => {}
        Record::Switch {
            tick,
            reason,
            reading,
        } => {
            put(slot, 0, &tick.to_le_bytes());
            put(slot, 4, &[reason]);
            put_reading(&mut slot[5..], reading);
        }
        Record::Refusal { place, refusal } => {
            put(slot, 0, &place.to_le_bytes());
            put(slot, 4, &[refusal]);
        }
        Record::Closing {
            tick,
            given,
            spent,
            gains,
            losses,
        } => {
            put(slot, 0, &tick.to_le_bytes());
            put(slot, 4, &given.to_le_bytes());
            put(slot, 8, &spent.to_le_bytes());
            put(slot, 12, &gains.to_le_bytes());
            put(slot, 16, &losses.to_le_bytes());
        }
    }
}

// The mark, the kind byte and the body.
fn put_record(slot: &mut [u8], r: Record)
    requires { length slot.old ≡ length (bytes r) }
    ensures { slot.new ≡ bytes r }
{
    let kind = r.kind();
    put(slot, 0, &kind.mark());
    put(slot, 2, &[kind.into()]);
    put_body(&mut slot[3..], r);
}

// Writes the record into the buffer at the place, if it fits there, and answers where the next one goes.
#[tactic(auto, using(crate::proofs::Round::round, crate::proofs::Placing::record_put))]
pub fn write(log: &mut [u8], at: usize, r: Record) -> Result<usize, WriteRefusal>
    ensures { Written log.old at r result log.new }
{
    let size = 3 + r.kind().body_len();
    if log.len().saturating_sub(at) < size {
        return Err(WriteRefusal::NoRoom);
    }
    let end = at + size;
    put_record(&mut log[at..end], r);
    Ok(end)
}
