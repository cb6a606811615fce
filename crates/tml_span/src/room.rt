//! Room for the attributes of tags.
ghost use Rattle.std.specs.Prelude.{◌≡◌, [], IfOk};

use crate::{Attr, List, Memory};
use std::alloc::Global;

/// Room for the attributes of a tag, which is kept for the next one that has some.
#[derive(Drop)]
pub struct Room<'s> {
    /// A list that was given up.
    kept: Option<List<Attr<'s>>>,
}

impl<'s> Room<'s> {
    /// Before the first tag. It takes no memory.
    pub fn new() -> Room<'s> {
        Room { kept: None }
    }

    /// A list without attributes, in the room that was kept, if any was. Most tags have at most two, so a new list has room
    /// for two.
    ///
    /// # Errors
    ///
    /// Out of memory.
    pub fn take(&mut self, alloc: Global) -> Result<List<Attr<'s>>, Memory>
        ensures { IfOk result (λ list. list ≡ []) }
    {
        match self.kept.take() {
            Some(list) => {
                let mut attrs = list.into_vec();
                attrs.clear();
                Ok(List::from_vec(attrs))
            }
            None => {
                let mut list = List::new(alloc);
                list.reserve_exact(2)?;
                Ok(list)
            }
        }
    }

    /// Keeps the room of a list that has attributes. The others have none.
    pub fn keep(&mut self, list: List<Attr<'s>>) {
        if !list.as_slice().is_empty() {
            self.kept = Some(list);
        }
    }
}
