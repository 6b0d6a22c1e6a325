ghost use Rattle.std.specs.Prelude.{◌≡◌, ◌≤◌, [], length, true, false};
ghost use Rattle.sg_model.specs.Games.{attacker, is_matrix};
ghost use Rattle.sg_model.specs.Sums.{nth};
ghost use Rattle.sg_game.specs.Counts.{IsActionOf, IsGoalOf, IsResourceOf, IsScheduleOf, IsTypeOf, action_name, resource_name, schedule_name};

use crate::game::{Game, Name};
use sg_model::Kind;

/// The name of that number in the list.
fn name_at(names: &[Name], n: u16) -> &str
    requires from_one { 1 ≤ n }
    requires in_range { n ≤ length names.now }
    ensures { result.now ≡ nth names.now n [] }
{
    let name = &names[n as usize - 1];
    name.text.as_str()
}

impl Game {
    /// The name of target `t`.
    pub fn target_name(&self, t: u16) -> &str
        requires security { is_matrix self.now ≡ false }
        requires known { IsGoalOf self.now t }
        ensures { result.now ≡ nth self.now.goals t [] }
    {
        name_at(self.goals.as_slice(), t)
    }

    /// The name of row `i`.
    pub fn row_name(&self, i: u16) -> &str
        requires matrix { is_matrix self.now ≡ true }
        requires known { IsGoalOf self.now i }
        ensures { result.now ≡ nth self.now.goals i [] }
    {
        name_at(self.goals.as_slice(), i)
    }

    /// The name of schedule `s`: with patrols, that of target `s`.
    pub fn schedule_name(&self, s: u16) -> &str
        requires { IsScheduleOf self.now s }
        ensures { result.now ≡ schedule_name self.now s }
    {
        match self.patrols {
            Some(_) => name_at(self.goals.as_slice(), s),
            None => {
                let schedule = &self.schedules.as_slice()[s as usize - 1];
                schedule.name.text.as_str()
            }
        }
    }

    /// The name of resource `r`: with patrols, `p` and its number.
    pub fn resource_name(&self, r: u16) -> &str
        requires { IsResourceOf self.now r }
        ensures { result.now ≡ resource_name self.now r }
    {
        match self.patrols {
            Some(_) => name_at(self.patrol_names.as_slice(), r),
            None => {
                let resource = &self.resources.as_slice()[r as usize - 1];
                resource.name.text.as_str()
            }
        }
    }

    /// The name of type `l`.
    pub fn type_name(&self, l: u8) -> &str
        requires { IsTypeOf self.now l }
        ensures { result.now ≡ (attacker self.now l).name }
    {
        let attacker = &self.types.as_slice()[l as usize - 1];
        attacker.name.text.as_str()
    }

    /// The name of action `a` of type `l`: a target's, or in matrix form the action's own.
    pub fn action_name(&self, l: u8, a: u16) -> &str
        requires known_type { IsTypeOf self.now l }
        requires known_action { IsActionOf self.now l a }
        ensures { result.now ≡ action_name self.now l a }
    {
        match self.kind {
            Kind::Security => name_at(self.goals.as_slice(), a),
            Kind::Matrix => {
                let attacker = &self.types.as_slice()[l as usize - 1];
                name_at(attacker.actions.as_slice(), a)
            }
        }
    }
}
