//! What typed tags carry.
ghost use Rattle.net_core.specs.Limits.{max_evidence};
ghost use Rattle.std.specs.Prelude.{◌≤◌, length};

use crate::markup::tree_of;
use crate::page::Page;
use crate::values::print_said;
use crate::words::Words;
use named::Named;
use std::alloc::Global;
use tml_refs::{Document, resolve};
use tml_types::{LinkEnd, Typed, TypedTag, type_tags};

/// Prints the typed tags of a text, each on a line with its place and what it carries.
pub fn print_typed(page: &mut Page, alloc: Global, text: &[u8]) -> Option<()>
    requires { length text.now ≤ max_evidence }
{
    let typed = typed_of(alloc, text)?;
    print_tags(page, typed.as_slice());
    Some(())
}

/// The typed tags of a text, if it has them.
fn typed_of<'t>(alloc: Global, text: &'t [u8]) -> Option<Typed<'t>>
    requires { length text.now ≤ max_evidence }
{
    let tree = tree_of(alloc, text)?;
    type_tags(alloc, &tree).ok()
}

fn print_tags(page: &mut Page, tags: &[TypedTag<'_>]) {
    for tag in tags {
        page.number(u64::from(tag.place()));
        print_tag(page, *tag);
        page.text("\n");
    }
}

fn print_tag(page: &mut Page, tag: TypedTag<'_>) {
    match tag {
        TypedTag::Event { eid, class, .. } => {
            page.text(" EVENT");
            print_field(page, "eid", Some(eid));
            print_value(page, "class", Some(class));
        }
        TypedTag::Signal { sid, .. } => {
            page.text(" SIGNAL");
            print_field(page, "sid", Some(sid));
        }
        TypedTag::Instance { .. } => print_instance(page, tag),
        TypedTag::Timex { .. } => print_timex(page, tag),
        _ => print_link(page, tag),
    }
}

fn print_instance(page: &mut Page, tag: TypedTag<'_>) {
    let TypedTag::Instance {
        eiid,
        event,
        signal,
        tense,
        aspect,
        pos,
        polarity,
        ..
    } = tag
    else {
        return;
    };
    page.text(" MAKEINSTANCE");
    print_field(page, "eiid", Some(eiid));
    print_field(page, "eventID", Some(event));
    print_field(page, "signalID", signal);
    print_value(page, "tense", tense);
    print_value(page, "aspect", aspect);
    print_value(page, "pos", pos);
    print_value(page, "polarity", polarity);
}

fn print_timex(page: &mut Page, tag: TypedTag<'_>) {
    let TypedTag::Timex {
        tid,
        kind,
        value,
        modifier,
        function,
        temporal,
        anchor,
        begin,
        finish,
        ..
    } = tag
    else {
        return;
    };
    page.text(" TIMEX3");
    print_field(page, "tid", Some(tid));
    print_value(page, "type", Some(kind));
    if let Some(value) = value {
        page.text(" value=");
        print_said(page, value);
    }
    print_value(page, "mod", modifier);
    print_value(page, "functionInDocument", function);
    print_temporal(page, temporal);
    print_field(page, "anchorTimeID", anchor);
    print_field(page, "beginPoint", begin);
    print_field(page, "endPoint", finish);
}

fn print_link(page: &mut Page, tag: TypedTag<'_>) {
    match tag {
        TypedTag::Tlink {
            lid,
            signal,
            left,
            rel,
            right,
            ..
        } => {
            print_names(page, " TLINK", lid, signal);
            print_end(page, left);
            print_value(page, "relType", Some(rel));
            print_end(page, right);
        }
        TypedTag::Alink {
            lid,
            signal,
            event,
            related,
            rel,
            ..
        } => {
            print_names(page, " ALINK", lid, signal);
            print_field(page, "eventInstanceID", Some(event));
            print_field(page, "relatedToEventInstance", Some(related));
            print_value(page, "relType", Some(rel));
        }
        TypedTag::Slink {
            lid,
            signal,
            event,
            subordinated,
            rel,
            ..
        } => {
            print_names(page, " SLINK", lid, signal);
            print_field(page, "eventInstanceID", event);
            print_field(page, "subordinatedEventInstance", Some(subordinated));
            print_value(page, "relType", Some(rel));
        }
        _ => page.text(" no link"),
    }
}

/// Prints the name of a link's tag, and the identifiers of the link and of its signal.
fn print_names(page: &mut Page, tag: &str, lid: Option<&[u8]>, signal: Option<&[u8]>) {
    page.text(tag);
    print_field(page, "lid", lid);
    print_field(page, "signalID", signal);
}

fn print_end(page: &mut Page, end: LinkEnd<'_>) {
    match end {
        LinkEnd::Instance(id) => print_field(page, "instance", Some(id)),
        LinkEnd::Time(id) => print_field(page, "time", Some(id)),
    }
}

/// Prints an identifier or a reference, if it is there.
fn print_field(page: &mut Page, name: &str, text: Option<&[u8]>) {
    if let Some(text) = text {
        page.text(" ");
        page.text(name);
        page.text("=");
        page.bytes(text);
    }
}

/// Prints a value of a list, if it is there.
fn print_value<T: Named>(page: &mut Page, name: &str, value: Option<T>) {
    if let Some(value) = value {
        print_field(page, name, Some(value.text()));
    }
}

fn print_temporal(page: &mut Page, temporal: Option<bool>) {
    match temporal {
        Some(true) => page.text(" temporalFunction=true"),
        Some(false) => page.text(" temporalFunction=false"),
        None => {}
    }
}

/// Prints how many intervals a text has, and the number of the interval that each of some identifiers names.
pub fn print_intervals(page: &mut Page, alloc: Global, text: &[u8], words: Words<'_>) -> Option<()>
    requires { length text.now ≤ max_evidence }
{
    let typed = typed_of(alloc, text)?;
    let document = resolve(alloc, &typed).ok()?;
    print_numbers(page, &document, words);
    Some(())
}

fn print_numbers(page: &mut Page, document: &Document<'_>, words: Words<'_>) {
    page.named("intervals", document.intervals());
    page.text(":");
    for name in words.rest.split(' ') {
        print_number(page, document.index_of(name.as_bytes()));
    }
    page.text("\n");
}

fn print_number(page: &mut Page, number: Option<u32>) {
    match number {
        Some(number) => page.named("", number),
        None => page.text(" none"),
    }
}
