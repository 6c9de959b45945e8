ghost use Rattle.std.specs.Prelude.{◌≡◌, IfErr, Decides};
ghost use Rattle.guard.specs.Driven.{Withstands};
ghost use Rattle.guard.specs.Regions.{encloses};
ghost use Rattle.drone.specs.Making.{size, sizes, sized, TakesSide};
ghost use Rattle.drone.specs.Meaning.{drone as means, hall as room, cover as covered, place as placed};
ghost use Rattle.machines.specs.Refusals.{numbered};
ghost use Rattle.drone.specs.Laws.{drone_laws, fits_below};

use super::state::DroneState;
use super::state::moves::{ACTIONS, DESCEND, GUSTS, point};
use super::{Drone, Side};
use guard::Guard;
use guard::geometry::{Point, Region};
use guard::reading::Reading;
use guard::refusal::StateRefusal;
use machines::making::MakingRefusal;

const MAX_SIDE: i32 = 63;

impl TryFrom<i32> for Side {
    type Error = MakingRefusal;

    ghost try_from_gives = { TakesSide };

    fn try_from(length: i32) -> Result<Side, MakingRefusal> {
        if (1..=MAX_SIDE).contains(&length) {
            Ok(Side { length })
        } else {
            Err(MakingRefusal::HallSize)
        }
    }
}

impl Drone {
    // The drone in a hall of this size.
    pub fn new(x: i32, y: i32, z: i32) -> Result<Drone, MakingRefusal>
        ensures value { sizes result ≡ sized x y z }
        ensures number { IfErr result (λ e. numbered e ≡ 4) }
    {
        Ok(Drone {
            x: Side::try_from(x)?,
            y: Side::try_from(y)?,
            z: Side::try_from(z)?,
        })
    }

    fn hall(&self) -> Region
        ensures { result ≡ room (size self.now) }
    {
        Region {
            low: point(0, 0, 0),
            high: point(self.x.length, self.y.length, self.z.length),
        }
    }

    // Whether every way down from here ends in the hall.
    fn lands_in_hall(&self, s: DroneState) -> bool
        ensures { result ≡ encloses (room (size self.now)) (covered s) }
    {
        self.hall().encloses(&self.cover(s))
    }
}

impl Guard for Drone {
    type State = DroneState;

    const ACTIONS: u8 = ACTIONS;

    const GUSTS: u8 = GUSTS;

    ghost meaning = { λ d. means (size d) };

    ghost lawful = { λ d. drone_laws (size d) (record { x = fits_below _ d.x.fit; y = fits_below _ d.y.fit }) };

    // The counts stand beside the constants, since generic code sees no constant's value.
    fn action_count(&self) -> u8 {
        Self::ACTIONS
    }

    fn gust_count(&self) -> u8 {
        Self::GUSTS
    }

    fn after(&self, s: DroneState, a: u8, w: u8) -> DroneState {
        s.after(a, w)
    }

    fn draw(&self, s: DroneState, a: u8) -> u16 {
        s.draw(a)
    }

    fn place(&self, s: DroneState) -> Point {
        s.place()
    }

    fn cover(&self, s: DroneState) -> Region {
        s.cover()
    }

    fn ticks(&self, s: DroneState) -> u16 {
        s.z()
    }

    fn fallback(&self, s: DroneState) -> u8 {
        let _ = s;
        DESCEND
    }

    fn fallback_draw(&self) -> u16 {
        2
    }

    fn safe(&self, r: Reading<DroneState>) -> bool
        ensures { result ≡ (means (size self.now)).safe r }
    {
        self.hall().holds(self.place(r.state))
    }

    fn recoverable(&self, r: Reading<DroneState>) -> bool
        ensures value { result ≡ (means (size self.now)).recoverable r }
        ensures exact { Decides result (Withstands (means (size self.now)) r) }
    {
        self.lands_in_hall(r.state)
    }

    fn numbers(&self, s: DroneState) -> (i32, i32, i32) {
        s.into()
    }

    fn state(&self, n: (i32, i32, i32)) -> Result<DroneState, StateRefusal> {
        DroneState::try_from(n)
    }
}
