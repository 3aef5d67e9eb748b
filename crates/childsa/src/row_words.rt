//! How a row is read from the words of a script.
use crate::words::Words;
use crate::wrong::Stop;
use book::row::{Beginner, KeptNonce, Row, RowState, Spis};

/// A row, in the words that are printed of one.
pub(crate) fn read_row(words: &mut Words<'_>) -> Result<Row, Stop> {
    words.keyword("row")?;
    let own = words.number("an own SPI")?;
    let peer = words.number("a peer SPI")?;
    let state = read_state(words)?;
    let began = read_beginner(words)?;
    let parent = read_parent(words)?;
    words.keyword("ni")?;
    let ni = read_kept(words, "the initiator's nonce, or `-` for none")?;
    words.keyword("nr")?;
    let nr = read_kept(words, "the responder's nonce, or `-` for none")?;
    Ok(Row {
        own,
        peer,
        state,
        began,
        parent,
        ni,
        nr,
    })
}

/// The number of a state.
fn read_state(words: &mut Words<'_>) -> Result<RowState, Stop> {
    words.choice(
        "a state, 1 to 5",
        &[
            ("1", RowState::Opening),
            ("2", RowState::Fresh),
            ("3", RowState::Standing),
            ("4", RowState::Superseded),
            ("5", RowState::Closing),
        ],
    )
}

/// The number of who began.
fn read_beginner(words: &mut Words<'_>) -> Result<Beginner, Stop> {
    words.choice(
        "0 or 1, who began",
        &[("0", Beginner::ThisEnd), ("1", Beginner::Peer)],
    )
}

/// `parent OWN PEER`.
fn read_parent(words: &mut Words<'_>) -> Result<Spis, Stop> {
    words.keyword("parent")?;
    let own = words.number("the parent's own SPI")?;
    let peer = words.number("the parent's peer SPI")?;
    Ok(Spis { own, peer })
}

/// A nonce of a row; `-` stands for none.
fn read_kept(words: &mut Words<'_>, expected: &str) -> Result<KeptNonce, Stop> {
    match words.word(expected)? {
        "-" => Ok(KeptNonce::default()),
        word => {
            let nonce = words.nonce_from(word)?;
            Ok(KeptNonce::from(&nonce))
        }
    }
}
