ghost use Rattle.std.specs.Prelude.{◌≡◌, ◌≤◌, length, true, false, ℤ, pos, ◌≤ℤ◌};
ghost use Rattle.sg_model.specs.Games.{action_count, attacker, is_matrix, resource_count, schedule_count};
ghost use Rattle.sg_model.specs.Limits.{IsGame};
ghost use Rattle.sg_model.specs.declared.limit.TheConstants.{PRIOR_LIMIT, ROW_LIMIT, SCALED_PATROL_LIMIT, SCALED_TARGET_LIMIT, TYPE_LIMIT};
ghost use Rattle.sg_game.specs.Counts.{IsTypeOf, row_count, target_count};

use crate::game::Game;
use sg_model::Kind;

impl Game {
    /// Nothing: its contract says that a game keeps every promise of a game file.
    pub fn promises(&self)
        ensures { IsGame self.now }
    {
        let _ = &self.scale;
    }

    /// The form of the game.
    pub fn kind(&self) -> Kind
        ensures { result ≡ self.now.kind }
    {
        self.kind
    }

    /// The declared common multiple of the attacker's payoff gaps, and 0 where none is declared.
    pub fn scale(&self) -> i64
        ensures { result ≡ self.now.scale }
    {
        self.scale
    }

    /// The number of identical patrols, where the game has them.
    pub fn patrols(&self) -> Option<u16>
        ensures { result ≡ self.now.patrols }
    {
        self.patrols
    }

    /// The number of targets, and 0 in matrix form.
    pub fn targets(&self) -> u16
        ensures count { result ≡ target_count self.now }
        ensures some { is_matrix self.now ≡ false → 1 ≤ result }
        ensures few { result ≤ SCALED_TARGET_LIMIT }
    {
        match self.kind {
            Kind::Security => self.goals.len() as u16,
            Kind::Matrix => 0,
        }
    }

    /// The number of rows, and 0 in security form.
    pub fn rows(&self) -> u16
        ensures count { result ≡ row_count self.now }
        ensures some { is_matrix self.now ≡ true → 1 ≤ result }
        ensures few { result ≤ ROW_LIMIT }
    {
        match self.kind {
            Kind::Security => 0,
            Kind::Matrix => self.goals.len() as u16,
        }
    }

    /// The number of resources, the patrols among them.
    pub fn resources(&self) -> u16
        ensures count { result ≡ resource_count self.now }
        ensures few { result ≤ SCALED_PATROL_LIMIT }
    {
        match self.patrols {
            Some(patrols) => patrols,
            None => self.resources.len() as u16,
        }
    }

    /// The number of schedules: with patrols, one for each target.
    pub fn schedules(&self) -> u16
        ensures count { result ≡ schedule_count self.now }
        ensures few { result ≤ SCALED_TARGET_LIMIT }
    {
        match self.patrols {
            Some(_) => self.goals.len() as u16,
            None => self.schedules.len() as u16,
        }
    }

    /// The number of types of attacker.
    pub fn types(&self) -> u8
        ensures count { result ≡ length self.now.types }
        ensures some { 1 ≤ result }
        ensures few { result ≤ TYPE_LIMIT }
    {
        self.types.len() as u8
    }

    /// How often type `l` comes, out of the sum of the priors.
    pub fn prior(&self, l: u8) -> i64
        requires { IsTypeOf self.now l }
        ensures prior { result ≡ (attacker self.now l).prior }
        ensures some { pos 1 ≤ℤ result }
        ensures few { result ≤ℤ PRIOR_LIMIT }
    {
        let attacker = &self.types.as_slice()[l as usize - 1];
        attacker.prior
    }

    /// The number of actions of type `l`: the targets, or in matrix form its own actions.
    pub fn actions(&self, l: u8) -> u16
        requires { IsTypeOf self.now l }
        ensures count { result ≡ action_count self.now l }
        ensures some { 1 ≤ result }
        ensures few { result ≤ SCALED_TARGET_LIMIT }
    {
        match self.kind {
            Kind::Security => self.goals.len() as u16,
            Kind::Matrix => {
                let attacker = &self.types.as_slice()[l as usize - 1];
                attacker.actions.len() as u16
            }
        }
    }
}
