//! A node that could not be worked.

ghost use Rattle.std.specs.Prelude.{◌≡◌, OnOk, OnErr, true};
ghost use Rattle.sg_tree.specs.declared.fix.Fix.{Fix};
ghost use Rattle.sg_search.specs.Changes.{Change, Goes, Holds};

use crate::lanes::Lanes;
use crate::nodes::take_out;
use crate::take::let_go;
use sg_search::{Held, Stuck};
use sg_tree::Cause;
use std::alloc::AllocError;

impl<'a> Lanes<'a> {
    /// A lane's node is stuck, for this cause. After want of memory nothing is changed.
    pub(crate) fn stick(&mut self, lane: u8, cause: Cause) -> Result<(), AllocError>
        requires { (node : Fix) × Holds self.old.search lane node true }
        ensures goes { OnOk result (Goes self.old.task self.old.search (Change.sticks lane cause) self.new.search) }
        ensures task { self.new.task ≡ self.old.task }
        ensures kept { OnErr result (self.new ≡ self.old) }
    {
        self.stuck.reserve(1)?;
        match let_go(&mut self.lanes, lane) {
            Some(held) => {
                let Held { node, ended: _ } = held;
                take_out(&mut self.undone, &node);
                self.stuck.push_reserved(Stuck { node, cause });
            }
            None => unreachable!(),
        }
        Ok(())
    }
}
