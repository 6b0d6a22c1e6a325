//! Choices of the first resources.

ghost use Rattle.std.specs.Prelude.{◌≡◌, ◌≤◌, ◌<◌, ◌++◌, ◌∷◌, [], length};

use sg_model::limit::RESOURCE_LIMIT;
use std::marker::Model;

/// Choices of the first resources of a game, up to 32: 0 for idle, or the place of a schedule in the resource's list.
#[derive(Drop)]
pub struct PartialPlay {
    len: u8,
    code: [u16; RESOURCE_LIMIT],
}

impl Model for PartialPlay {
    ghost use Rattle.std.specs.Prelude.{◌≤◌, ℕ, List, take};

    ghost Value = { List ℕ };

    ghost view = { λ s. take s.len s.code };

    ghost invariant = { λ s. s.len ≤ 32 };
}

impl PartialPlay {
    /// No choice.
    pub fn new() -> PartialPlay
        ensures { result ≡ [] }
    {
        PartialPlay {
            len: 0,
            code: [0; RESOURCE_LIMIT],
        }
    }

    /// How many choices there are.
    pub fn len(&self) -> usize
        ensures count { result ≡ length self.now }
        ensures few { result ≤ RESOURCE_LIMIT }
    {
        self.len as usize
    }

    /// The choices.
    pub fn as_slice(&self) -> &[u16]
        ensures value { result.now ≡ self.now }
        ensures few { length result.now ≤ RESOURCE_LIMIT }
    {
        &self.code[..self.len as usize]
    }

    /// One more choice.
    pub(crate) fn push(&mut self, c: u16)
        requires { length self.old < RESOURCE_LIMIT }
        ensures { self.new ≡ self.old ++ c ∷ [] }
    {
        self.code[self.len as usize] = c;
        self.len += 1;
    }

    /// One choice less.
    pub(crate) fn pop(&mut self) -> u16
        requires { 0 < length self.old }
        ensures { self.old ≡ self.new ++ result ∷ [] }
    {
        self.len -= 1;
        self.code[self.len as usize]
    }
}
