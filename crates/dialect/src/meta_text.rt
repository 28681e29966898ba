//! The bytes of replies to meta commands.

ghost use Rattle.std.specs.Prelude.{◌≡◌, ◌++◌, OnOk, OnErr, codes, decimal, flat_map};
ghost use Rattle.proto.specs.Growth.{Grows};
ghost use Rattle.proto.specs.Text.{reply_text};
ghost use Rattle.dialect.specs.MetaText as spec;

use crate::meta::{Field, MetaShow};
use itoa::Buffer;
use proto::{Found, Reply, write_reply};
use std::alloc::AllocError;

fn write_number(number: u64, out: &mut Vec<u8>) -> Result<(), AllocError>
    ensures ok { OnOk result (out.new.items ≡ out.old.items ++ decimal number) }
    ensures grows { Grows out.old.items out.new.items }
{
    let mut buffer = Buffer::new();
    out.extend_from_slice(buffer.format(number).as_bytes())
}

fn write_word(field: &Field, out: &mut Vec<u8>) -> Result<(), AllocError>
    ensures ok { OnOk result (out.new.items ≡ out.old.items ++ spec.word_text field.now) }
    ensures grows { Grows out.old.items out.new.items }
{
    match field {
        Field::Flags => Ok(()),
        Field::Size => Ok(()),
        Field::Unique => Ok(()),
        Field::Word(word) => {
            out.extend_from_slice(b" ".as_slice())?;
            out.extend_from_slice(word.as_slice())
        }
    }
}

fn write_words(fields: &[Field], out: &mut Vec<u8>) -> Result<(), AllocError>
    ensures ok { OnOk result (out.new.items ≡ out.old.items ++ flat_map spec.word_text fields.now) }
    ensures grows { Grows out.old.items out.new.items }
{
    for field in fields {
        write_word(field, out)?;
    }
    Ok(())
}

fn write_field(found: &Found, field: &Field, out: &mut Vec<u8>) -> Result<(), AllocError>
    ensures ok { OnOk result (out.new.items ≡ out.old.items ++ spec.field_text found.now field.now) }
    ensures grows { Grows out.old.items out.new.items }
{
    match field {
        Field::Flags => {
            out.extend_from_slice(b" f".as_slice())?;
            write_number(found.flags as u64, out)
        }
        Field::Size => {
            out.extend_from_slice(b" s".as_slice())?;
            write_number(found.block.len() as u64, out)
        }
        Field::Unique => {
            out.extend_from_slice(b" c".as_slice())?;
            write_number(found.unique.unwrap_or(0), out)
        }
        Field::Word(_) => write_word(field, out),
    }
}

fn write_fields(found: &Found, fields: &[Field], out: &mut Vec<u8>) -> Result<(), AllocError>
    ensures ok { OnOk result (out.new.items ≡ out.old.items ++ flat_map (spec.field_text found.now) fields.now) }
    ensures grows { Grows out.old.items out.new.items }
{
    for field in fields {
        write_field(found, field, out)?;
    }
    Ok(())
}

/// Writes two letters, and the words of the line.
fn write_line(head: &[u8], fields: &[Field], out: &mut Vec<u8>) -> Result<(), AllocError>
    ensures ok { OnOk result (out.new.items ≡ out.old.items ++ spec.line_text head.now fields.now) }
    ensures grows { Grows out.old.items out.new.items }
{
    out.extend_from_slice(head)?;
    write_words(fields, out)?;
    out.extend_from_slice(b"\r\n".as_slice())
}

/// Writes the beginning of the line that has the size of a value.
fn write_size(size: usize, out: &mut Vec<u8>) -> Result<(), AllocError>
    ensures ok { OnOk result (out.new.items ≡ out.old.items ++ codes "VA " ++ decimal size) }
    ensures grows { Grows out.old.items out.new.items }
{
    out.extend_from_slice(b"VA ".as_slice())?;
    write_number(size as u64, out)
}

/// Writes the end of a line, and the value behind it. Room is made for all of it before the value is written.
fn write_value(value: &[u8], out: &mut Vec<u8>) -> Result<(), AllocError>
    ensures ok { OnOk result (out.new.items ≡ out.old.items ++ codes "\r\n" ++ value.now ++ codes "\r\n") }
    ensures grows { Grows out.old.items out.new.items }
{
    out.reserve(value.len() + 4)?;
    out.extend_from_slice(b"\r\n".as_slice())?;
    out.extend_from_slice(value)?;
    out.extend_from_slice(b"\r\n".as_slice())
}

fn write_item_line(fields: &[Field], found: &Found, out: &mut Vec<u8>) -> Result<(), AllocError>
    ensures ok { OnOk result (out.new.items ≡ out.old.items ++ codes "HD" ++ flat_map (spec.field_text found.now) fields.now ++ codes "\r\n") }
    ensures grows { Grows out.old.items out.new.items }
{
    out.extend_from_slice(b"HD".as_slice())?;
    write_fields(found, fields, out)?;
    out.extend_from_slice(b"\r\n".as_slice())
}

fn write_item_value(fields: &[Field], found: &Found, out: &mut Vec<u8>) -> Result<(), AllocError>
    ensures ok { OnOk result (out.new.items ≡ out.old.items ++ spec.sized_text found.now.block (flat_map (spec.field_text found.now) fields.now)) }
    ensures grows { Grows out.old.items out.new.items }
{
    write_size(found.block.len(), out)?;
    write_fields(found, fields, out)?;
    write_value(found.block.as_slice(), out)
}

fn write_item(show: &MetaShow, found: &Found, out: &mut Vec<u8>) -> Result<(), AllocError>
    ensures ok { OnOk result (out.new.items ≡ out.old.items ++ spec.meta_item_text show.now found.now) }
    ensures grows { Grows out.old.items out.new.items }
{
    if show.value {
        write_item_value(show.fields.as_slice(), found, out)
    } else {
        write_item_line(show.fields.as_slice(), found, out)
    }
}

fn write_number_value(fields: &[Field], number: u64, out: &mut Vec<u8>) -> Result<(), AllocError>
    ensures ok { OnOk result (out.new.items ≡ out.old.items ++ spec.sized_text (decimal number) (flat_map spec.word_text fields.now)) }
    ensures grows { Grows out.old.items out.new.items }
{
    let mut buffer = Buffer::new();
    let digits = buffer.format(number).as_bytes();
    write_size(digits.len(), out)?;
    write_words(fields, out)?;
    write_value(digits, out)
}

fn write_count(show: &MetaShow, number: u64, out: &mut Vec<u8>) -> Result<(), AllocError>
    ensures ok { OnOk result (out.new.items ≡ out.old.items ++ spec.meta_number_text show.now number) }
    ensures grows { Grows out.old.items out.new.items }
{
    if show.value {
        write_number_value(show.fields.as_slice(), number, out)
    } else {
        write_line(b"HD".as_slice(), show.fields.as_slice(), out)
    }
}

/// Writes a line of two letters, unless the client is not shown that all went as it should.
fn write_loud(head: &[u8], show: &MetaShow, out: &mut Vec<u8>) -> Result<(), AllocError>
    ensures ok { OnOk result (out.new.items ≡ out.old.items ++ spec.unless_quiet show.now (spec.line_text head.now show.now.fields)) }
    ensures grows { Grows out.old.items out.new.items }
{
    if show.quiet {
        return Ok(());
    }
    write_line(head, show.fields.as_slice(), out)
}

fn write_found(show: &MetaShow, found: &[Found], out: &mut Vec<u8>) -> Result<(), AllocError>
    ensures ok { OnOk result (out.new.items ≡ out.old.items ++ spec.meta_found_text show.now found.now) }
    ensures grows { Grows out.old.items out.new.items }
{
    match found {
        [] => write_loud(b"EN".as_slice(), show, out),
        [first, ..] => write_item(show, first, out),
    }
}

/// Adds the bytes of a reply, or after a failed allocation a beginning of them.
fn append_meta(reply: &Reply, show: &MetaShow, out: &mut Vec<u8>) -> Result<(), AllocError>
    ensures ok { OnOk result (out.new.items ≡ out.old.items ++ spec.meta_text reply.now show.now) }
    ensures grows { Grows out.old.items out.new.items }
{
    match reply {
        Reply::Stored => write_loud(b"HD".as_slice(), show, out),
        Reply::Deleted => write_loud(b"HD".as_slice(), show, out),
        Reply::Number(_) if show.quiet => Ok(()),
        Reply::Number(number) => write_count(show, *number, out),
        Reply::Values(values) => write_found(show, values.as_slice(), out),
        Reply::NotStored => write_line(b"NS".as_slice(), show.fields.as_slice(), out),
        Reply::Exists => write_line(b"EX".as_slice(), show.fields.as_slice(), out),
        Reply::NotFound => write_line(b"NF".as_slice(), show.fields.as_slice(), out),
        Reply::Touched => append_plain(reply, out),
        Reply::TooLarge => append_plain(reply, out),
        Reply::NotNumber => append_plain(reply, out),
    }
}

/// Adds the bytes that the reply has by itself.
fn append_plain(reply: &Reply, out: &mut Vec<u8>) -> Result<(), AllocError>
    ensures ok { OnOk result (out.new.items ≡ out.old.items ++ reply_text reply.now) }
    ensures grows { Grows out.old.items out.new.items }
{
    write_reply(reply, out)
}

/// Adds the bytes that the client of a meta command is given for a reply. The only error is a failed
/// allocation, and then the vector has what it had.
pub fn write_meta(reply: &Reply, show: &MetaShow, out: &mut Vec<u8>) -> Result<(), AllocError>
    ensures ok { OnOk result (out.new.items ≡ out.old.items ++ spec.meta_text reply.now show.now) }
    ensures err { OnErr result (out.new.items ≡ out.old.items) }
{
    let start = out.len();
    let written = append_meta(reply, show, out);
    if written.is_err() {
        out.truncate(start);
    }
    written
}
