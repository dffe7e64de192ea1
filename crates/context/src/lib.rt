// The context of a command, as the code keeps it: a state, and the joints in a table, both lent; how a command changes it, and refusal 6.
#![tactic(auto)]

ghost use Rattle.std.specs.Prelude.{◌≡◌, ◌≤◌, true, IfSome};
ghost use Rattle.std.specs.Float.{binary32};
ghost use Rattle.std.specs.Float.Ieee.{of_bits};
ghost use Rattle.soil.specs.Reading.{soil_allowed, soil_holding};
ghost use Rattle.format.specs.Commands.{in_range};
ghost use Rattle.context.specs.Context.{ground_of};
ghost use Rattle.context.specs.Running.{walled, running, wall_kept, next_joints, start_state, next_state, absent_in, SettingsRange, NextAsks};

use coefficient::Settings;
use format::{Command, SoilGiven};
use members::Joint;
use soil::Soil;
use walls::{Wall, WallBase};

// A soil, and whether it is sensitive.
#[derive(Clone, Copy)]
pub struct Ground {
    pub soil: Soil,
    pub sensitive: bool,
}

// The latest wall base: none yet, given where no row is to be written, or its running values.
#[derive(Clone, Copy)]
pub enum LatestWall {
    Missing,
    Given,
    Running(Wall),
}

impl LatestWall {
    pub fn is_given(self) -> bool
        ensures { result ≡ walled self }
    {
        !matches!(self, LatestWall::Missing)
    }

    pub fn running(self) -> Option<Wall>
        ensures { result ≡ running self }
    {
        match self {
            LatestWall::Running(wall) => Some(wall),
            _ => None,
        }
    }
}

// The latest wall, the settings, the latest soil.
// `SoundState` is no ghost field: specs/ makes states by any command, in range or not, as with the running values of a wall.
#[derive(Clone, Copy)]
pub struct State {
    pub wall: LatestWall,
    pub settings: Option<Settings>,
    pub soil: Option<Ground>,
}

// A joint for each id that was given.
pub type Joints = [Option<Joint>; 256];

// Nothing given yet. A function and no `Default`: its contract names the start that 01 has.
#[tactic(auto, unfolding(crate::specs::Running::start_state))]
pub fn start() -> State
    ensures { result ≡ start_state }
{
    State {
        wall: LatestWall::Missing,
        settings: None,
        soil: None,
    }
}

// ---- what a command changes

// The ground of a command; its soil value was tested.
#[tactic(auto, unfolding(soil::specs::Reading::soil_of))]
fn ground_given(given: SoilGiven) -> Ground
    requires kind { given.kind ≤ 1 }
    requires allowed { soil_allowed given.kind given.value ≡ true }
    ensures { result ≡ ground_of given }
{
    let Some(soil) = soil::from_bits(given.kind as u8, given.value) else {
        unreachable!()
    };
    Ground {
        soil,
        sensitive: given.sensitive == 1,
    }
}

// The wall after its base: its running values are worked out only where rows are to be written.
fn wall_kept(settings: Option<Settings>, room: bool, base: WallBase) -> LatestWall
    requires settings { IfSome settings SettingsRange }
    requires ranged { in_range (Command.WallBase base) ≡ true }
    ensures { result ≡ wall_kept settings room base }
{
    match settings {
        Some(s) if room => LatestWall::Running(walls::wall_of(s.behaviour, base)),
        _ => LatestWall::Given,
    }
}

// What a command changes in the state; a joint changes the table (`hold_joint`). `room` tells whether rows are to be written. It stays a
// switch: with the running values worked out at every base, a wall base takes 2.9 times plain Rust in `size` (docs/DECISIONS.md).
#[tactic(auto, unfolding(crate::specs::Running::next_state))]
#[inline(always)]
pub fn next(state: &mut State, room: bool, command: Command)
    requires { NextAsks state.old command }
    ensures { state.new ≡ next_state room state.old command }
{
    match command {
        Command::Settings(settings) => state.settings = Some(settings),
        Command::WallBase(base) => state.wall = wall_kept(state.settings, room, base),
        Command::Soil(given) => state.soil = Some(ground_given(given)),
        Command::Building => *state = start(),
        _ => {}
    }
}

// The joints after a command.
#[tactic(auto, unfolding(crate::specs::Running::next_joints))]
#[inline(always)]
pub fn hold_joint(joints: &mut Joints, command: Command)
    ensures { joints.new ≡ next_joints joints.old command }
{
    match command {
        Command::Joint(id, joint) => joints[usize::from(id)] = Some(joint),
        Command::Building => *joints = [None; 256],
        _ => {}
    }
}

// ---- refusal 6

// What holds at a command: the state, and the joints that are given. Both are lent: where the state is copied, `size` takes 5 % more
// instructions.
#[derive(Clone, Copy)]
pub struct Held<'a> {
    pub state: &'a State,
    pub joints: &'a Joints,
}

impl Held<'_> {
    // Whether a command asks for what is not given: a joint, a wall base, a soil.
    #[tactic(auto, unfolding(crate::specs::Running::absent_in))]
    #[inline(always)]
    pub fn absent(self, command: Command) -> bool
        ensures { result ≡ absent_in self.entry.state.now self.entry.joints.now command }
    {
        match command {
            Command::Hingeless(id1, id2, _) => {
                self.joints[usize::from(id1)].is_none() || self.joints[usize::from(id2)].is_none()
            }
            Command::Storey(_) => !self.state.wall.is_given(),
            Command::Footing(_) => self.state.soil.is_none(),
            Command::Basement(id, m) if m.place == 0 => self.joints[usize::from(id)].is_none(),
            Command::Basement(_, _) => !self.state.wall.is_given(),
            _ => false,
        }
    }
}
