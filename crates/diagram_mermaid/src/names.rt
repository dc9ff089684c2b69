//! The words for participants.
ghost use Rattle.std.specs.Prelude.{◌≡◌, ◌==◌, not};
ghost use Rattle.std.specs.List.{list_all};
ghost use Rattle.diagram_mermaid.specs.Names.{is_barred, fits_behind, ends_name, are_listed_behind, are_listed, is_listed, is_word};

/// Whether no word for a participant may have this byte.
fn is_barred(byte: u8) -> bool
    ensures { result ≡ is_barred byte }
{
    byte == b'<' || byte == b'>' || byte == b'=' || byte == b':' || byte == b';'
}

/// Whether a word may end after this byte: it has at least one byte, and its last one is no dash.
fn ends_name(before: u8) -> bool
    ensures { result ≡ ends_name before }
{
    before != b',' && before != b'-'
}

/// Whether a byte of words with commas between them may come after another one.
fn fits_behind(before: u8, byte: u8) -> bool
    ensures { result ≡ fits_behind before byte }
{
    if byte == b',' {
        ends_name(before)
    } else {
        !is_barred(byte) && !(before == b',' && byte == b'-')
    }
}

/// Whether the bytes are words for participants, with commas between them.
pub(crate) fn are_listed(bytes: &[u8]) -> bool
    ensures { result ≡ are_listed bytes.now }
{
    let mut before = b',';
    for byte in bytes {
        if !fits_behind(before, *byte) {
            return false;
        }
        before = *byte;
    }
    ends_name(before)
}

fn has_no(barred: u8, bytes: &[u8]) -> bool
    ensures { result ≡ list_all (λ b. not (b == barred)) bytes.now }
{
    bytes.iter().all(|byte| !(*byte == barred))
}

/// Whether the bytes are a word for a participant.
#[tactic(auto, unfolding(crate::specs::Names::is_listed))]
pub(crate) fn is_listed(bytes: &[u8]) -> bool
    ensures { result ≡ is_listed bytes.now }
{
    are_listed(bytes) && has_no(b',', bytes)
}

/// Whether the bytes are a word for a participant of an arrow.
#[tactic(auto, unfolding(crate::specs::Names::is_word))]
pub(crate) fn is_word(bytes: &[u8]) -> bool
    ensures { result ≡ is_word bytes.now }
{
    is_listed(bytes) && has_no(b'+', bytes)
}
