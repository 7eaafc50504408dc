// Edits, references, names and texts at the front of bytes.
ghost use Rattle.std.specs.Prelude.{◌≡◌, ◌≤◌, [], true, length, drop, IfOk};
ghost use Rattle.cov_base.specs.Spelling.{is_line_text};
ghost use Rattle.cov_edit.specs.EditFits.{has_line_text};
ghost use Rattle.cov_record.specs.Reading.{Takes, Gives, front_kind, front_node, front_line, front_name, front_option_name, front_text, front_new, front_insert, front_delete, front_rename, front_move, front_remove, front_edit, front_edits, front_plain, EndsReading, Puts, alike, with_edit};

use crate::ahead::Ahead;
use crate::fault::{Fault, NotARecord};
use cov_base::{
    Kind, LineNo, LineRef, MemoryOr, Name, NodeNo, NodeRef, OptionName, Text, is_line_text,
};
use cov_edit::{Edit, Edits};
use std::alloc::Global;

pub(crate) fn take_kind(ahead: &mut Ahead<'_>) -> Option<Kind>
    ensures { Takes (front_kind ahead.old) result ahead.new }
{
    match ahead.take_u8()? {
        0 => Some(Kind::File),
        1 => Some(Kind::Dir),
        _ => None,
    }
}

pub(crate) fn take_node(ahead: &mut Ahead<'_>) -> Option<NodeRef>
    ensures { Takes (front_node ahead.old) result ahead.new }
{
    let tag = ahead.take_u8()?;
    let number = ahead.take_u32()?;
    match tag {
        0 => Some(NodeRef::Old(NodeNo::new(number))),
        1 => Some(NodeRef::New(number)),
        _ => None,
    }
}

pub(crate) fn take_line(ahead: &mut Ahead<'_>) -> Option<LineRef>
    ensures { Takes (front_line ahead.old) result ahead.new }
{
    let tag = ahead.take_u8()?;
    let number = ahead.take_u32()?;
    match tag {
        0 => Some(LineRef::Old(LineNo::new(number))),
        1 => Some(LineRef::New(number)),
        _ => None,
    }
}

pub(crate) fn take_name(alloc: Global, ahead: &mut Ahead<'_>) -> Result<Name, Fault>
    ensures { Gives (front_name ahead.old) result ahead.new }
{
    let Some(bytes) = ahead.take_sized() else {
        return Err(MemoryOr::Refused(NotARecord));
    };
    match Name::read(alloc, bytes) {
        Ok(name) => Ok(name),
        Err(MemoryOr::Refused(_)) => Err(MemoryOr::Refused(NotARecord)),
        Err(MemoryOr::Memory) => Err(MemoryOr::Memory),
    }
}

pub(crate) fn take_option_name(alloc: Global, ahead: &mut Ahead<'_>) -> Result<OptionName, Fault>
    ensures { Gives (front_option_name ahead.old) result ahead.new }
{
    let Some(bytes) = ahead.take_sized() else {
        return Err(MemoryOr::Refused(NotARecord));
    };
    match OptionName::read(alloc, bytes) {
        Ok(name) => Ok(name),
        Err(MemoryOr::Refused(_)) => Err(MemoryOr::Refused(NotARecord)),
        Err(MemoryOr::Memory) => Err(MemoryOr::Memory),
    }
}

pub(crate) fn take_text(alloc: Global, ahead: &mut Ahead<'_>) -> Result<Text, Fault>
    ensures gives { Gives (front_text ahead.old) result ahead.new }
    ensures fits { IfOk result (λ text. is_line_text text ≡ true) }
{
    let Some(count) = ahead.take_u16() else {
        return Err(MemoryOr::Refused(NotARecord));
    };
    let Some(bytes) = ahead.take_bytes(count as usize) else {
        return Err(MemoryOr::Refused(NotARecord));
    };
    if !is_line_text(bytes) {
        return Err(MemoryOr::Refused(NotARecord));
    }
    match Text::shared(alloc, bytes) {
        Ok(text) => Ok(text),
        Err(_) => Err(MemoryOr::Memory),
    }
}

fn take_new(alloc: Global, ahead: &mut Ahead<'_>) -> Result<Edit, Fault>
    ensures gives { Gives (front_new ahead.old) result ahead.new }
    ensures fits { IfOk result (λ edit. has_line_text edit ≡ true) }
{
    let Some(kind) = take_kind(ahead) else {
        return Err(MemoryOr::Refused(NotARecord));
    };
    let Some(parent) = take_node(ahead) else {
        return Err(MemoryOr::Refused(NotARecord));
    };
    match take_name(alloc, ahead) {
        Ok(name) => Ok(Edit::New { kind, parent, name }),
        Err(fault) => Err(fault),
    }
}

fn take_insert(alloc: Global, ahead: &mut Ahead<'_>) -> Result<Edit, Fault>
    ensures gives { Gives (front_insert ahead.old) result ahead.new }
    ensures fits { IfOk result (λ edit. has_line_text edit ≡ true) }
{
    let Some(file) = take_node(ahead) else {
        return Err(MemoryOr::Refused(NotARecord));
    };
    let Some(after) = take_line(ahead) else {
        return Err(MemoryOr::Refused(NotARecord));
    };
    match take_text(alloc, ahead) {
        Ok(text) => Ok(Edit::Insert { file, after, text }),
        Err(fault) => Err(fault),
    }
}

fn take_delete(ahead: &mut Ahead<'_>) -> Result<Edit, Fault>
    ensures gives { Gives (front_delete ahead.old) result ahead.new }
    ensures fits { IfOk result (λ edit. has_line_text edit ≡ true) }
{
    let Some(file) = take_node(ahead) else {
        return Err(MemoryOr::Refused(NotARecord));
    };
    let Some(line) = take_line(ahead) else {
        return Err(MemoryOr::Refused(NotARecord));
    };
    Ok(Edit::Delete { file, line })
}

fn take_rename(alloc: Global, ahead: &mut Ahead<'_>) -> Result<Edit, Fault>
    ensures gives { Gives (front_rename ahead.old) result ahead.new }
    ensures fits { IfOk result (λ edit. has_line_text edit ≡ true) }
{
    let Some(node) = take_node(ahead) else {
        return Err(MemoryOr::Refused(NotARecord));
    };
    match take_name(alloc, ahead) {
        Ok(name) => Ok(Edit::Rename { node, name }),
        Err(fault) => Err(fault),
    }
}

fn take_move(ahead: &mut Ahead<'_>) -> Result<Edit, Fault>
    ensures gives { Gives (front_move ahead.old) result ahead.new }
    ensures fits { IfOk result (λ edit. has_line_text edit ≡ true) }
{
    let Some(node) = take_node(ahead) else {
        return Err(MemoryOr::Refused(NotARecord));
    };
    let Some(parent) = take_node(ahead) else {
        return Err(MemoryOr::Refused(NotARecord));
    };
    Ok(Edit::Move { node, parent })
}

fn take_remove(ahead: &mut Ahead<'_>) -> Result<Edit, Fault>
    ensures gives { Gives (front_remove ahead.old) result ahead.new }
    ensures fits { IfOk result (λ edit. has_line_text edit ≡ true) }
{
    let Some(node) = take_node(ahead) else {
        return Err(MemoryOr::Refused(NotARecord));
    };
    Ok(Edit::Remove { node })
}

pub(crate) fn take_edit(alloc: Global, ahead: &mut Ahead<'_>) -> Result<Edit, Fault>
    ensures gives { Gives (front_edit ahead.old) result ahead.new }
    ensures fits { IfOk result (λ edit. has_line_text edit ≡ true) }
{
    match ahead.take_u8() {
        Some(1) => take_new(alloc, ahead),
        Some(2) => take_insert(alloc, ahead),
        Some(3) => take_delete(ahead),
        Some(4) => take_rename(alloc, ahead),
        Some(5) => take_move(ahead),
        Some(6) => take_remove(ahead),
        _ => Err(MemoryOr::Refused(NotARecord)),
    }
}

/// Edits of the side `True`, behind their number.
pub(crate) fn take_plain(alloc: Global, ahead: &mut Ahead<'_>) -> Result<Edits, Fault>
    ensures { Gives (front_plain ahead.old) result ahead.new }
{
    match ahead.take_u32() {
        None => Err(MemoryOr::Refused(NotARecord)),
        Some(count) => take_edits(alloc, ahead, count),
    }
}

// The edits that a number counts. There is room for those that were read alone.
fn take_edits(alloc: Global, ahead: &mut Ahead<'_>, count: u32) -> Result<Edits, Fault>
    ensures { Gives (alike [] (front_edits count ahead.old)) result ahead.new }
{
    let mut edits = Edits::new(alloc);
    match fill(alloc, ahead, &mut edits, count) {
        None => Ok(edits),
        Some(fault) => Err(fault),
    }
}

/// Puts so many edits behind others, with the side of the last of these, which is `True` where there is none.
pub(crate) fn fill(
    alloc: Global,
    ahead: &mut Ahead<'_>,
    edits: &mut Edits,
    count: u32,
) -> Option<Fault>
    ensures { EndsReading (alike edits.old (front_edits count ahead.old)) edits.new
        result ahead.new }
{
    for read in 0..count {
        if let Some(fault) = take_one(alloc, ahead, edits) {
            return Some(fault);
        }
    }
    None
}

fn take_one(alloc: Global, ahead: &mut Ahead<'_>, edits: &mut Edits) -> Option<Fault>
    ensures { Puts with_edit (front_edit ahead.old) edits.old edits.new result ahead.new }
{
    match take_edit(alloc, ahead) {
        Err(fault) => Some(fault),
        Ok(edit) => match edits.push_alike(edit) {
            Ok(_) => None,
            Err(_) => Some(MemoryOr::Memory),
        },
    }
}
