//! The bytes of notices, and of replies as they are shown.

ghost use Rattle.std.specs.Prelude.{◌≡◌, ◌++◌, OnOk, OnErr};
ghost use Rattle.dialect.specs.Text.{notice_text, items_text, shown_text};

use crate::meta_text::write_meta;
use crate::turn::{Notice, Show};
use proto::{Reply, write_reply};
use std::alloc::AllocError;

/// How many bytes the `END` after the items of a reply has, with its line end.
const END_BYTES: usize = 5;

impl Notice {
    /// The bytes that are given.
    pub fn text(&self) -> &'static [u8]
        ensures { result.now ≡ notice_text self.now }
    {
        match self {
            Notice::UnknownName => b"ERROR\r\n",
            Notice::BadFormat => b"CLIENT_ERROR bad command line format\r\n",
            Notice::BadDelete => {
                b"CLIENT_ERROR bad command line format.  Usage: delete <key> [noreply]\r\n"
            }
            Notice::BadExptime => b"CLIENT_ERROR invalid exptime argument\r\n",
            Notice::BadDelta => b"CLIENT_ERROR invalid numeric delta argument\r\n",
            Notice::TooLarge => b"SERVER_ERROR object too large for cache\r\n",
            Notice::BadChunk => b"CLIENT_ERROR bad data chunk\r\n",
            Notice::LineTooLong => b"CLIENT_ERROR line too long\r\n",
            Notice::Version => b"VERSION 1.6.18-eve-1\r\n",
            Notice::Done => b"OK\r\n",
            Notice::NoItems => b"END\r\n",
            Notice::MetaNoop => b"MN\r\n",
            Notice::UnknownFlag => b"CLIENT_ERROR invalid flag\r\n",
            Notice::DuplicateFlag => b"CLIENT_ERROR duplicate flag\r\n",
            Notice::BadFlag => b"CLIENT_ERROR invalid or duplicate flag\r\n",
            Notice::BadToken => b"CLIENT_ERROR bad token in command line format\r\n",
            Notice::BadDeltaValue => b"CLIENT_ERROR invalid numeric delta value\r\n",
            Notice::BadModeLength => b"CLIENT_ERROR incorrect length for M token\r\n",
            Notice::BadSetMode => b"CLIENT_ERROR invalid mode for ms M token\r\n",
            Notice::BadCountMode => b"CLIENT_ERROR invalid mode for ma M token\r\n",
            Notice::OpaqueTooLong => b"CLIENT_ERROR opaque token too long\r\n",
            Notice::FlushRefused => b"CLIENT_ERROR flush_all not allowed\r\n",
            Notice::ShutdownRefused => b"ERROR: shutdown not enabled\r\n",
            Notice::OutOfMemory => b"SERVER_ERROR out of memory storing object\r\n",
            Notice::Stats(report) => report.text(),
            Notice::Silent => b"",
            Notice::Http => b"",
            Notice::Binary => b"",
        }
    }
}

/// Adds the items of a reply, without the `END` after them. On error the vector is unchanged.
fn write_items(reply: &Reply, out: &mut Vec<u8>) -> Result<(), AllocError>
    ensures ok { OnOk result (out.new.items ≡ out.old.items ++ items_text reply.now) }
    ensures err { OnErr result (out.new.items ≡ out.old.items) }
{
    write_reply(reply, out)?;
    if let Reply::Values(_) = reply {
        out.truncate(out.len() - END_BYTES);
    }
    Ok(())
}

/// Adds the bytes that a client is given for a reply. The only error is a failed allocation, and then
/// the vector has what it had.
pub fn write_shown(reply: &Reply, show: &Show, out: &mut Vec<u8>) -> Result<(), AllocError>
    ensures ok { OnOk result (out.new.items ≡ out.old.items ++ shown_text reply.now show.now) }
    ensures err { OnErr result (out.new.items ≡ out.old.items) }
{
    match show {
        Show::Whole => write_reply(reply, out),
        Show::Quiet => Ok(()),
        Show::Items => write_items(reply, out),
        Show::Instead(notice) => out.extend_from_slice(notice.text()),
        Show::Meta(show) => write_meta(reply, show, out),
    }
}
