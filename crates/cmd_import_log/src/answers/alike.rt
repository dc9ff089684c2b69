//! The warnings about hosts that a log may name by two words.
ghost use Rattle.std.specs.List.{flat_map};
ghost use Rattle.texts.specs.Writing.{Adds};
ghost use Rattle.cmd_import_log.specs.Answers.AlikeHosts.{alike_line, alike_text};

use chart::Name;
use texts::pieces::{Piece, add_pieces};
use texts::{Out, TextBuffer, WriteError};

/// A host that no line names as a peer, and a peer without lines that may be the same host.
#[derive(Clone, Copy, Debug)]
pub struct Alike {
    pub host: Name,
    pub peer: Name,
}

/// Adds that the peer with this name may be the host with that name.
#[tactic(auto, unfolding(crate::specs::Answers::AlikeHosts::alike_line))]
fn add_alike_line<'a, V: Out>(
    text: &mut TextBuffer<'_, V>,
    host: &'a [u8],
    peer: &'a [u8],
) -> Result<(), WriteError>
    ensures { Adds V.sink text.old text.new result (alike_line host.now peer.now) }
{
    add_pieces(
        text,
        &[
            Piece::Bytes(peer),
            Piece::Bytes(b" may be "),
            Piece::Bytes(host),
            Piece::Bytes(b", which no line names as a peer: --peer "),
            Piece::Bytes(host),
            Piece::Bytes(b"="),
            Piece::Bytes(peer),
            Piece::Bytes(b"?\n"),
        ],
    )
}

/// Adds that a peer may be a host.
#[tactic(auto, unfolding(crate::specs::Answers::AlikeHosts::alike_text))]
fn add_alike<V: Out>(text: &mut TextBuffer<'_, V>, alike: &Alike) -> Result<(), WriteError>
    ensures { Adds V.sink text.old text.new result (alike_text alike.now) }
{
    add_alike_line(text, alike.host.as_bytes(), alike.peer.as_bytes())
}

/// Adds the peers that may be other hosts.
pub(crate) fn add_all_alike<V: Out>(
    text: &mut TextBuffer<'_, V>,
    alike: &[Alike],
) -> Result<(), WriteError>
    ensures { Adds V.sink text.old text.new result (flat_map alike_text alike.now) }
{
    for hosts in alike {
        add_alike(text, hosts)?;
    }
    Ok(())
}
