//! Building all the terms of a text.

ghost use Rattle.std.specs.Prelude.{[], ◌∷◌};
ghost use Rattle.names.specs.Listed.{Extends};
ghost use Rattle.names.specs.View.{list};
ghost use Rattle.reader.specs.Ops.{run};
ghost use Rattle.text.specs.Builders.{Outcome};
ghost use Rattle.text.specs.Finishing.{BuildsRule};

use crate::builder::Builder;
use crate::fault::LimitFault;
use names::Names;
use reader::op::Op;
use reader::sentence::Shape;
use terms::known::TRUE;

impl Builder {
    /// Builds the terms of all these steps, from nothing.
    pub fn build(&mut self, text: &[u8], ops: &[Op], names: &mut Names) -> Result<(), LimitFault>
        ensures kept { Extends (list names.old) (list names.new) }
        ensures built { Outcome text.now (list names.old) (run text.now ops.now) (list names.new) self.new result }
    {
        self.clear();
        for op in ops {
            self.step(text, *op, names)?;
        }
        Ok(())
    }

    /// Builds the head and the body of a rule; a fact has the body `true`.
    pub fn build_rule(
        &mut self,
        shape: Shape,
        text: &[u8],
        ops: &[Op],
        names: &mut Names,
    ) -> Result<(), LimitFault>
        ensures kept { Extends (list names.old) (list names.new) }
        ensures built { BuildsRule shape text.now ops.now (list names.old) (list names.new) self.new result }
    {
        self.build(text, ops, names)?;
        match shape {
            Shape::Fact => self.compound(TRUE, 0),
            Shape::Rule => Ok(()),
        }
    }
}
