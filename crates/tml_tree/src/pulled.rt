//! The root of a source whose units are pulled one by one.
ghost use Rattle.std.specs.Prelude.{◌≡◌, IfOk, IfErr, OnOk};
ghost use Rattle.tml_span.specs.Reader.{IsReading};
ghost use Rattle.tml_tree.specs.View.{tag_node};
ghost use Rattle.tml_tree.specs.Whole.{IsTreeOf, HasTreeFault};
ghost use Rattle.tml_tree.specs.Pulled.{IsAtEnd, LeavesReading};

use crate::builder::Builder;
use crate::{Tag, TreeFault};
use std::alloc::Global;
use tml_span::UnitReader;

/// The root of the document that the units of a reader make. None of them was given.
pub fn root_from<'s>(alloc: Global, reader: &mut UnitReader<'s>) -> Result<Tag<'s>, TreeFault>
    requires reading { IsReading reader.old }
    requires none_given { reader.old.place ≡ 0 }
    ensures ok { IfOk result (λ t. IsTreeOf reader.old.source (tag_node t)) }
    ensures fault { IfErr result (λ e. HasTreeFault reader.old.source e) }
    ensures ends { OnOk result (IsAtEnd reader.old.source reader.new) }
    ensures leaves { IfErr result (λ e. LeavesReading reader.old.source reader.new e) }
{
    let mut builder = Builder::new(alloc);
    loop {
        match reader.pull(alloc) {
            Ok(Some(unit)) => {
                if let Err(fault) = builder.take(alloc, unit) {
                    return Err(fault);
                }
            }
            Ok(None) => match builder.finish() {
                Some(root) => return Ok(root),
                None => {
                    let place = reader.place();
                    return Err(TreeFault::Unclosed { place });
                }
            },
            Err(_) => return Err(TreeFault::Memory),
        }
    }
}
