ghost use Rattle.std.specs.Prelude.{Some};
ghost use Rattle.executive.specs.Controls.{control_text};

use std::fmt;

// Who has control: the keeper from the making on, the planner from a gain to the next loss.
#[derive(Clone, Copy, Debug, PartialEq, Eq)]
pub enum Control {
    Planner,
    Keeper,
}

impl fmt::Display for Control {
    ghost output = { λ c. Some (control_text c) };

    fn fmt<W: fmt::Write>(&self, f: &mut fmt::Formatter<W>) -> fmt::Result {
        f.write_str(match self {
            Control::Planner => "planner",
            Control::Keeper => "keeper",
        })
    }
}
