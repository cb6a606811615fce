//! The links of a document, before and after their ends are found.
ghost use Rattle.std.specs.Prelude.{◌≡◌, ◌<◌, [], IfOk};
ghost use Rattle.tml_refs.specs.Firsts.{bound, nowhere};
ghost use Rattle.tml_refs.specs.Linking.{AreLinked, IsLooseAt, NoneIsLoose};

use crate::document::DocLink;
use crate::firsts::earlier;
use crate::name_index::NameIndex;
use net_core::{List, Memory, Rel};
use tml_types::LinkEnd;

/// A TLINK by the identifiers of its ends, and where it begins.
#[derive(Clone, Copy)]
pub struct NamedLink<'s> {
    pub place: u32,
    pub left: LinkEnd<'s>,
    pub rel: Rel,
    pub right: LinkEnd<'s>,
}

/// Appends the links with the numbers of their ends, and gives the first place of one that has an end at no tag.
pub fn link_up(
    names: &NameIndex<'_>,
    named: &[NamedLink<'_>],
    links: &mut List<DocLink>,
) -> Result<Option<u32>, Memory>
    requires { links.old ≡ [] }
    ensures links { IfOk result (λ loose. AreLinked names.now named.now links.new) }
    ensures before { IfOk result (λ loose. NoneIsLoose names.now named.now (bound loose)) }
    ensures here { IfOk result (λ loose. bound loose < nowhere → IsLooseAt names.now named.now (bound loose)) }
{
    let mut loose = None;
    for link in named {
        match names.link(link.left, link.rel, link.right) {
            Some(link) => links.push(link)?,
            None => loose = earlier(loose, Some(link.place)),
        }
    }
    Ok(loose)
}
