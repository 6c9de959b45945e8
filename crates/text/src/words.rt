ghost use Rattle.std.specs.Prelude.{◌≡◌};
ghost use Rattle.text.specs.Words.{reason_text, refusal_text};

use guard::reason::Reason;

// Why control stays or changes hands, by the number of the reason, since a record may hold any.
pub fn reason(n: u8) -> &'static str
    ensures { result.now ≡ reason_text n }
{
    match Reason::try_from(n) {
        Ok(Reason::Stays) => "control stays",
        Ok(Reason::NoAction) => "no action was proposed, so control goes to the keeper",
        Ok(Reason::NotAdmissible) =>
            "the proposal is not admissible, so control goes to the keeper",
        Ok(Reason::Calm) => "the reading is calm, so control goes to the planner",
        Err(_) => "unknown reason",
    }
}

// Why something was refused, by the number of the refusal, since a record may hold any.
pub fn refusal(n: u8) -> &'static str
    ensures { result.now ≡ refusal_text n }
{
    match n {
        1 => "an upper coordinate is below its lower one",
        2 => "the draft holds 16 regions",
        3 => "the length of a rail is not from 1 to 100,000",
        4 => "the size of a hall is not from 1 to 63 on each axis",
        5 => "no state has these numbers",
        6 => "the call has no place in the phase",
        7 => "the reading is not recoverable",
        8 => "the grant is not the one that is out",
        9 => "the state cannot follow",
        10 => "the charge cannot follow",
        11 => "the mission has had its 1,000,000 ticks",
        12 => "the record is cut short",
        13 => "the mark is not that of the kind",
        14 => "the kind is not from 1 to 7",
        15 => "the record is one of a log",
        16 => "there is no room for the record",
        _ => "unknown refusal",
    }
}
