ghost use Rattle.std.specs.Prelude.{◌≡◌, length, ℤ, pos, All, true, false};
ghost use Rattle.sg_model.specs.Games.{attacker, is_matrix, payoff, resource_schedules, schedule_targets};
ghost use Rattle.sg_model.specs.Limits.{IsCount, IsPay};
ghost use Rattle.sg_model.specs.Sums.{nth};
ghost use Rattle.sg_game.specs.Counts.{IsActionOf, IsGoalOf, IsResourceOf, IsScheduleOf, IsTypeOf, follower_pay, four, leader_pay};

use crate::game::Game;

impl Game {
    /// The payoffs of type `l` at target `t`: defender covered and uncovered, attacker covered and uncovered.
    pub fn payoffs(&self, l: u8, t: u16) -> [i64; 4]
        requires security { is_matrix self.now ≡ false }
        requires known_type { IsTypeOf self.now l }
        requires known_target { IsGoalOf self.now t }
        ensures payoffs { result ≡ four (payoff self.now l t) }
        ensures within { All IsPay result }
    {
        let attacker = &self.types.as_slice()[l as usize - 1];
        let payoff = &attacker.payoffs.as_slice()[t as usize - 1];
        [payoff.dc, payoff.du, payoff.ac, payoff.au]
    }

    /// What the defender gets from row `i` where type `l` takes action `a`.
    pub fn leader(&self, l: u8, i: u16, a: u16) -> i64
        requires matrix { is_matrix self.now ≡ true }
        requires known_type { IsTypeOf self.now l }
        requires known_row { IsGoalOf self.now i }
        requires known_action { IsActionOf self.now l a }
        ensures pay { result ≡ leader_pay self.now l i a }
        ensures within { IsPay result }
    {
        let attacker = &self.types.as_slice()[l as usize - 1];
        let row = &attacker.leader.as_slice()[i as usize - 1];
        row.as_slice()[a as usize - 1]
    }

    /// What type `l` gets from action `a` where the defender plays row `i`.
    pub fn follower(&self, l: u8, i: u16, a: u16) -> i64
        requires matrix { is_matrix self.now ≡ true }
        requires known_type { IsTypeOf self.now l }
        requires known_row { IsGoalOf self.now i }
        requires known_action { IsActionOf self.now l a }
        ensures pay { result ≡ follower_pay self.now l i a }
        ensures within { IsPay result }
    {
        let attacker = &self.types.as_slice()[l as usize - 1];
        let row = &attacker.follower.as_slice()[i as usize - 1];
        row.as_slice()[a as usize - 1]
    }

    /// The targets of schedule `s`: with patrols, target `s` alone.
    pub fn schedule_targets(&self, s: u16) -> &[u16]
        requires { IsScheduleOf self.now s }
        ensures list { result.now ≡ schedule_targets self.now s }
        ensures known { All (IsGoalOf self.now) result.now }
    {
        match self.patrols {
            Some(_) => &self.all.as_slice()[s as usize - 1..s as usize],
            None => {
                let schedule = &self.schedules.as_slice()[s as usize - 1];
                schedule.members.as_slice()
            }
        }
    }

    /// The schedules of resource `r`: with patrols, all of them.
    pub fn resource_schedules(&self, r: u16) -> &[u16]
        requires { IsResourceOf self.now r }
        ensures list { result.now ≡ resource_schedules self.now r }
        ensures known { All (IsScheduleOf self.now) result.now }
    {
        match self.patrols {
            Some(_) => self.all.as_slice(),
            None => {
                let resource = &self.resources.as_slice()[r as usize - 1];
                resource.members.as_slice()
            }
        }
    }
}
